// Calls by computation of the definitions: the bench sheet of document 01, and calls that meet the premises of the claims.
#![tactic(auto)]
