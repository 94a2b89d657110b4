// Where the first branch of a match stands (document 02, card 6): under the value of each of its pointcuts, left to right, and
// under the rest of the stack if its close is 1.
ghost use Rattle.std.specs.Prelude.{◌≡◌, ◌+◌, ◌≤◌, ◌<◌, length};
ghost use Rattle.image.specs.Kinds.{TermKind, an_entry};
ghost use Rattle.image.specs.Limits.{entry_limit};
ghost use Rattle.image.specs.Records.{as_child};
ghost use Rattle.image.specs.Layout.{records_of};
ghost use Rattle.read_terms.specs.Lent.{Lent};
ghost use Rattle.read_terms.specs.Fields.{entry_terms, Entries};
ghost use Rattle.check_rules.specs.Scopes.{scope_length};
ghost use Rattle.check_scopes.specs.Scopes.{Passed, ChildAt, value_types, Binds};

use crate::scope::{Setting, bind};
use check_rules::leaf::SCOPE_LENGTH;
use read_records::fields::field;
use read_records::numbers::{entry_term, type_descriptor};
use read_terms::entries::{FIRST_ENTRY, binds_rest, entries_in};
use read_terms::terms::{stated_type, type_at_field};
use read_terms::types::first_type;

// An entry binds the value of the pointcut that it names; 0 binds nothing.
fn bind_entry(
    image: &[u8],
    terms: &[u16],
    descriptors: &[u32],
    scope: &mut [u8; SCOPE_LENGTH],
    len: usize,
    entry: u16,
) -> usize
    requires { Lent image.now terms.now descriptors.now × (entry ≤ length (records_of image.now).terms) × (length scope.old ≡ scope_length) × (len < scope_length) }
    ensures { Binds scope.old scope.new len result (value_types (records_of image.now) (as_child an_entry entry)) }
{
    if entry == 0 {
        return len;
    }
    let pointcut = stated_type(image, terms, entry_term(entry));
    bind(
        scope,
        len,
        first_type(type_descriptor(descriptors, pointcut)),
    );
    len + 1
}

// The same for each entry, left to right.
fn bind_entries(
    image: &[u8],
    terms: &[u16],
    descriptors: &[u32],
    scope: &mut [u8; SCOPE_LENGTH],
    len: usize,
    fields: &[u8],
) -> usize
    requires { Lent image.now terms.now descriptors.now × Entries image.now fields.now × (length scope.old ≡ scope_length) × (len + entry_limit ≤ scope_length) }
    ensures { Binds scope.old scope.new len result (value_types (records_of image.now) (entry_terms fields.now)) × (result ≤ len + entry_limit) }
{
    let mut used = len;
    for i in 0..entries_in(fields) {
        let entry = field(fields, FIRST_ENTRY + i);
        used = bind_entry(image, terms, descriptors, scope, used, entry);
    }
    used
}

// The first branch of a match; the rest of the stack, which is of the stack's type, is the innermost variable.
pub fn match_setting(
    image: &[u8],
    terms: &[u16],
    descriptors: &[u32],
    scope: &mut [u8; SCOPE_LENGTH],
    p: Setting,
    fields: &[u8],
) -> Setting
    requires { Lent image.now terms.now descriptors.now × Passed image.now fields.now TermKind.match scope.old p.len p.dom.0 }
    ensures { ChildAt image.now fields.now TermKind.match 1 scope.old scope.new p.len p.dom.0 result.len result.dom.0 }
{
    let used = bind_entries(image, terms, descriptors, scope, p.len, fields);
    if binds_rest(fields) {
        let stack = type_at_field(image, terms, fields, 1);
        bind(scope, used, stack);
        return Setting { len: used + 1, ..p };
    }
    Setting { len: used, ..p }
}
