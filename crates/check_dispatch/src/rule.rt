// 14 and 15 at a term that may have children: the rule of its kind, on its fields.
ghost use Rattle.std.specs.Prelude.{◌≡◌, ℕ, ◌<◌, List};
ghost use Rattle.image.specs.Bytes.{number_at};
ghost use Rattle.image.specs.Layout.{records_of};
ghost use Rattle.image.specs.Types.{term_place};
ghost use Rattle.read_terms.specs.Lent.{Lent, TypeOffsets, Masks, IsTerm};
ghost use Rattle.check_rules.specs.Judged.{rule_verdict};

use check_core::cells::{check_lower, check_new_cell, check_read, check_store};
use check_core::computing::{
    check_apply, check_arithmetic, check_byte, check_choice, check_function, check_pair,
    check_print, check_sequence, check_split,
};
use check_core::watches::{
    check_advice, check_install, check_mark, check_new_label, check_pointcut, check_takedown,
};
use check_objects::objects::{check_method_call, check_object};
use check_objects::stacks::{check_keep, check_match, check_stack};
use image::DOMAIN_LIMIT;
use read_records::kinds;
use read_records::numbers::{DomainNo, TermNo};
use read_terms::terms::{term_fields, term_kind, term_place};
use verdict::Verdict;

// Abort, which has any type, asks nothing.
pub fn check_rule(
    image: &[u8],
    types: &[u16],
    terms: &[u16],
    descriptors: &[u32],
    n: TermNo,
    c: DomainNo,
    masks: &[u16; DOMAIN_LIMIT],
) -> Verdict
    requires { Lent image.now terms.now descriptors.now × TypeOffsets image.now types.now × IsTerm image.now n.0 × (35 < number_at image.now (term_place (records_of image.now) n.0)) × Masks image.now masks.now }
    ensures { (Γ : List ℕ) → result ≡ rule_verdict (records_of image.now) (record { context = Γ; dom = c.0 }) n.0 }
{
    let at = term_place(image, terms, n);
    let fields = term_fields(image, terms, n);
    match term_kind(image, terms, n) {
        kinds::SEQUENCE => check_sequence(image, terms, descriptors, at, fields),
        kinds::PRINT => check_print(image, terms, descriptors, at, fields),
        kinds::CHOICE => check_choice(image, terms, descriptors, at, fields),
        kinds::PAIR => check_pair(image, terms, descriptors, at, fields),
        kinds::SPLIT => check_split(image, terms, descriptors, at, fields),
        kinds::FUNCTION => check_function(image, terms, descriptors, at, fields),
        kinds::APPLY => check_apply(image, terms, descriptors, at, fields, c),
        kinds::ARITHMETIC => check_arithmetic(image, terms, descriptors, at, fields),
        kinds::NEW_LABEL => check_new_label(image, masks, descriptors, at, fields, c),
        kinds::MARK => check_mark(image, terms, descriptors, at, fields, c),
        kinds::POINTCUT => check_pointcut(image, masks, terms, descriptors, at, fields),
        kinds::ADVICE => check_advice(image, masks, terms, descriptors, at, fields),
        kinds::INSTALL => check_install(image, masks, terms, descriptors, at, fields, c),
        kinds::NEW_CELL => check_new_cell(image, masks, terms, descriptors, at, fields, c),
        kinds::READ => check_read(image, masks, terms, descriptors, at, fields, c),
        kinds::STORE => check_store(image, masks, terms, descriptors, at, fields, c),
        kinds::LOWER => check_lower(image, masks, terms, descriptors, at, fields, c),
        kinds::ABORT => Ok(()),
        kinds::OBJECT => check_object(image, types, terms, descriptors, at, fields),
        kinds::CALL => check_method_call(image, types, terms, descriptors, at, fields, c),
        kinds::STACK => check_stack(image, descriptors, at, fields),
        kinds::KEEP => check_keep(image, terms, descriptors, at, fields, c),
        kinds::MATCH => check_match(image, terms, descriptors, at, fields),
        kinds::TAKEDOWN => check_takedown(image, masks, descriptors, at, fields, c),
        _ => check_byte(image, terms, descriptors, at, fields),
    }
}
