// The children of a term are used: each has its mark changed, and the term's own mark is its height, one more than the greatest
// of theirs.
ghost use Rattle.std.specs.Prelude.{◌≡◌, suc, ◌<◌, max, [], ◌∷◌, length, set};
ghost use Rattle.image.specs.Limits.{depth_limit};
ghost use Rattle.image.specs.Kinds.{an_entry};
ghost use Rattle.image.specs.Records.{as_child};
ghost use Rattle.read_records.specs.Heads.{side_of, entries_of, children_of, Fitting};
ghost use Rattle.check_uses.specs.Marks.{Lower, more, first_use, used_mark, use_all, highest, entered};

use crate::marks::{mark_of, one_more, set_mark};
use image::DEPTH_LIMIT;
use read_records::numbers::TermNo;

// What a use adds to a mark, and the mark of a term that is used again.
pub const USED: u8 = 128;

pub const AGAIN: u8 = 255;

// A height is kept up to one past the limit of the depths.
const TOO_HIGH: u8 = DEPTH_LIMIT as u8 + 1;

// A mark with one use more.
fn used_mark(mark: u8) -> u8
    ensures { result ≡ used_mark mark }
{
    if mark < USED { mark + USED } else { AGAIN }
}

// The greater of two heights.
fn higher(h: u32, g: u32) -> u32
    ensures { result ≡ max h g }
{
    h.max(g)
}

// One use more of the term e. The greatest height so far is h; the greater of it and the term's. It is handed from child to child
// as a word, since a byte would be widened again for each of them.
fn use_child(marks: &mut [u8], e: TermNo, h: u32) -> u32
    requires { e.0 < length marks.old }
    ensures { (result ≡ highest (e.0 ∷ []) marks.old h) × (marks.new ≡ use_all (e.0 ∷ []) marks.old) }
{
    let mark = mark_of(marks, e);
    set_mark(marks, e, used_mark(mark));
    higher(h, u32::from(mark % USED))
}

// The height of the term n, whose children have at most the height h.
fn set_height(marks: &mut [u8], n: TermNo, h: u32)
    requires { (n.0 < length marks.old) × (h < first_use) }
    ensures { marks.new ≡ set marks.old n.0 (more (suc depth_limit) h) }
{
    set_mark(marks, n, one_more(TOO_HIGH, h as u8));
}

// The term n without children; with the child e; with e and f; with e, f and g.
pub fn enter_leaf(marks: &mut [u8], n: TermNo)
    requires { n.0 < length marks.old }
    ensures { marks.new ≡ entered [] n.0 marks.old }
{
    set_height(marks, n, 0);
}

pub fn enter_one(marks: &mut [u8], n: TermNo, e: TermNo)
    requires { (n.0 < length marks.old) × (e.0 < length marks.old) }
    ensures { marks.new ≡ entered (e.0 ∷ []) n.0 marks.old }
{
    let h = use_child(marks, e, 0);
    set_height(marks, n, h);
}

pub fn enter_two(marks: &mut [u8], n: TermNo, e: TermNo, f: TermNo)
    requires { (n.0 < length marks.old) × (e.0 < length marks.old) × (f.0 < length marks.old) }
    ensures { marks.new ≡ entered (e.0 ∷ f.0 ∷ []) n.0 marks.old }
{
    let first = use_child(marks, e, 0);
    let h = use_child(marks, f, first);
    set_height(marks, n, h);
}

pub fn enter_three(marks: &mut [u8], n: TermNo, e: TermNo, f: TermNo, g: TermNo)
    requires { (n.0 < length marks.old) × (e.0 < length marks.old) × (f.0 < length marks.old) × (g.0 < length marks.old) }
    ensures { marks.new ≡ entered (e.0 ∷ f.0 ∷ g.0 ∷ []) n.0 marks.old }
{
    let first = use_child(marks, e, 0);
    let second = use_child(marks, f, first);
    let h = use_child(marks, g, second);
    set_height(marks, n, h);
}

// The children side by side in a term's fields.
fn use_side(fields: &[u8], code: u32, marks: &mut [u8]) -> u32
    requires { Fitting code fields.now × Lower (length marks.old) (side_of code fields.now) }
    ensures { (result ≡ highest (side_of code fields.now) marks.old 0) × (marks.new ≡ use_all (side_of code fields.now) marks.old) }
{
    let first = read_records::table::field_count(code);
    let count = read_records::table::child_count(code, fields.len());
    let mut h: u32 = 0;
    for j in 0..count {
        let e = read_records::fields::field_as(fields, first + j);
        h = use_child(marks, e, h);
    }
    h
}

// The child that an entry names (document 02, card 6); 0 names none.
fn use_entry(entry: u16, h: u32, marks: &mut [u8]) -> u32
    requires { Lower (length marks.old) (as_child an_entry entry) }
    ensures { (result ≡ highest (as_child an_entry entry) marks.old h) × (marks.new ≡ use_all (as_child an_entry entry) marks.old) }
{
    if entry == 0 {
        return h;
    }
    use_child(marks, read_records::numbers::entry_term(entry), h)
}

// The entries in a term's fields, of which only a match has any.
fn use_entries(fields: &[u8], code: u32, below: u32, marks: &mut [u8]) -> u32
    requires { Fitting code fields.now × Lower (length marks.old) (entries_of code fields.now) }
    ensures { (result ≡ highest (entries_of code fields.now) marks.old below) × (marks.new ≡ use_all (entries_of code fields.now) marks.old) }
{
    let before = read_records::table::field_count(code);
    let first = before + read_records::table::child_count(code, fields.len());
    let count = read_records::table::entry_count(code, fields.len());
    let mut h = below;
    for j in 0..count {
        let entry = read_records::fields::field(fields, first + j);
        h = use_entry(entry, h, marks);
    }
    h
}

// The term n with the children in its fields, in their order.
pub fn enter_children(fields: &[u8], code: u32, n: TermNo, marks: &mut [u8])
    requires { Fitting code fields.now × (n.0 < length marks.old) × Lower (length marks.old) (children_of code fields.now) }
    ensures { marks.new ≡ entered (children_of code fields.now) n.0 marks.old }
{
    let side = use_side(fields, code, marks);
    let h = use_entries(fields, code, side, marks);
    set_height(marks, n, h);
}
