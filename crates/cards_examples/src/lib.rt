// Calls, computed from the definitions, that meet the premises of cards 6, 7, 9, 11 and 13 (document 02).
#![tactic(auto)]
