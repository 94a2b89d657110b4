// The leaves of the plain types, by number.
#![tactic(auto)]

ghost use Rattle.std.specs.Prelude.{◌≡◌, ◌≤◌, ◌<◌, length, get_or, set, drop};
ghost use Rattle.calculus.specs.Limits.{leaf_limit};
ghost use Rattle.image.specs.Layout.{records_of};
ghost use Rattle.read_records.specs.Descriptors.{descriptor_kind, descriptor_field0, descriptor_field1};
ghost use Rattle.image.specs.Types.{type_of};
ghost use Rattle.image.specs.Kinds.{TypeKind, type_row_of};
ghost use Rattle.read_records.specs.Leaves.{Leaves, plain_leaves};
ghost use Rattle.read_terms.specs.Lent.{Types, IsType};
ghost use Rattle.read_leaves.specs.Leaves.{join_leaves, leaves_of, Part};

use calculus::LEAF_LIMIT;
use image::TYPE_LIMIT;
use read_records::kinds;
use read_records::numbers::{TypeNo, type_descriptor};
use read_terms::types::{first_type, second_type};

// The most leaves of a plain type (document 01, "The image").
const MOST_LEAVES: u8 = LEAF_LIMIT as u8;

// The leaves of a pair, from those of its parts; 0 where it is not plain.
#[tactic(auto, unfolding(crate::specs::Leaves::join_leaves))]
fn join_leaves(m: u8, n: u8) -> u8
    requires { (m ≤ leaf_limit) × (n ≤ leaf_limit) }
    ensures { result ≡ join_leaves m n }
{
    if m == 0 || n == 0 || MOST_LEAVES < m + n {
        return 0;
    }
    m + n
}

// The leaves of a type in the table.
pub fn leaves_at(table: &[u8], t: TypeNo) -> u8
    requires { t.0 < length table.now }
    ensures { result ≡ get_or table.now t.0 0 }
{
    table[usize::from(t.0)]
}

// The leaves of the type with a descriptor, where the table has the leaves of the types before it.
#[tactic(auto, unfolding(crate::specs::Leaves::leaves_of))]
fn leaves_of(descriptor: u32, table: &[u8]) -> u8
    requires { descriptor_kind descriptor ≡ (type_row_of TypeKind.pair).number → Part table.now (descriptor_field0 descriptor) × Part table.now (descriptor_field1 descriptor) }
    ensures { result ≡ leaves_of descriptor table.now }
{
    let kind = read_records::numbers::descriptor_kind(descriptor);
    if kind == kinds::PAIR_TYPE {
        let m = leaves_at(table, first_type(descriptor));
        let n = leaves_at(table, second_type(descriptor));
        return join_leaves(m, n);
    }
    u8::from(kind < kinds::PAIR_TYPE)
}

fn set_leaf(table: &mut [u8], t: TypeNo, n: u8)
    requires { t.0 < length table.old }
    ensures { table.new ≡ set table.old t.0 n }
{
    table[usize::from(t.0)] = n;
}

// Fills the first places of a table with the leaves of the types; what stands behind them is kept.
pub fn set_leaves(image: &[u8], descriptors: &[u32], count: usize, table: &mut [u8])
    requires { Types image.now descriptors.now × (count ≡ length (records_of image.now).types) × (count ≤ length table.old) }
    ensures { Leaves image.now table.new × (drop count table.new ≡ drop count table.old) }
{
    for i in 0..count {
        let t = TypeNo(i as u16);
        let n = leaves_of(type_descriptor(descriptors, t), table);
        set_leaf(table, t, n);
    }
}

// The leaves of one type. A unit, truth or number has one; for any other type those of all types before it are worked out.
pub fn type_leaves(image: &[u8], descriptors: &[u32], count: usize, t: TypeNo) -> u8
    requires { Types image.now descriptors.now × (count ≡ length (records_of image.now).types) × IsType image.now t.0 }
    ensures { result ≡ plain_leaves (type_of (records_of image.now) t.0) }
{
    if read_records::numbers::descriptor_kind(type_descriptor(descriptors, t)) < kinds::PAIR_TYPE {
        return 1;
    }
    let mut table = [0u8; TYPE_LIMIT];
    set_leaves(image, descriptors, count, &mut table);
    leaves_at(&table, t)
}
