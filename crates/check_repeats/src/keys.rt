// The keys of types. Equal types have equal keys, so a type whose key no earlier type has is new. The key is the descriptor;
// for the type of an object, which may have more fields than its descriptor (document 02, card 3), it is a hash of all fields.
// The filter holds the key of each type by its number, and behind them a set of bits, where each of these keys has its bit:
// a key whose bit is not there is compared with none.
ghost use Rattle.std.specs.Prelude.{◌≡◌, not, ◌≤◌, ◌<◌, length};
ghost use Rattle.check_repeats.specs.Keys.{key_count, filter_length, mixed, hash_of, key_of, place_of, bit_of, word_of, marked, has_bit, with_bit, with_mark, new_key, with_key, Filled};

use image::TYPE_LIMIT;
use read_records::fields::field;
use read_records::kinds;
use read_records::numbers::{TypeNo, descriptor_kind};

// So many keys stand before the bits: one for each type that an image may have.
const KEYS: usize = TYPE_LIMIT;

// The bits are so many words behind the keys.
const BIT_WORDS: usize = 32;

pub const FILTER_LENGTH: usize = KEYS + BIT_WORDS;

// Keys are numbers below this.
const RANGE: u64 = 4294967296;

// The golden section of that range: multiples of it are spread evenly over the range.
const FACTOR: u64 = 1640531527;

// The hash with one field more: the middle of a product, in which every bit of both has a part.
fn mix(hash: u32, value: u16) -> u32
    ensures { result ≡ mixed hash value }
{
    ((u64::from(hash) + u64::from(value)) * FACTOR / 65536 % RANGE) as u32
}

fn hash_of(fields: &[u8]) -> u32
    ensures { result ≡ hash_of fields.now }
{
    let mut hash: u32 = 1;
    for i in 0..fields.len() / 2 {
        hash = mix(hash, field(fields, i));
    }
    hash
}

// The key of the type with this descriptor and these fields.
pub fn key_of(fields: &[u8], descriptor: u32) -> u32
    ensures { result ≡ key_of descriptor fields.now }
{
    if descriptor_kind(descriptor) == kinds::OBJECT_TYPE {
        return hash_of(fields);
    }
    descriptor
}

// Where the bit of a key stands: its place among the 1,024 bits, which are 32 words; the word; the place in that word.
fn place_of(key: u32) -> usize
    ensures { result ≡ place_of key }
{
    (u64::from(key) * FACTOR % RANGE / 4194304) as usize
}

fn word_of(key: u32) -> usize
    ensures { result ≡ word_of key }
{
    KEYS + place_of(key) / 32
}

fn bit_of(key: u32) -> usize
    ensures { result ≡ bit_of key }
{
    place_of(key) % 32
}

fn has_bit(word: u32, bit: usize) -> bool
    requires { bit < 32 }
    ensures { result ≡ has_bit word bit }
{
    (word >> bit) % 2 == 1
}

fn with_bit(word: u32, bit: usize) -> u32
    requires { bit < 32 }
    ensures { result ≡ with_bit word bit }
{
    word | (1 << bit)
}

// The bit of this key is there.
fn is_marked(filter: &[u32], key: u32) -> bool
    requires { filter_length ≤ length filter.now }
    ensures { result ≡ marked filter.now key }
{
    let i = word_of(key);
    has_bit(filter[i], bit_of(key))
}

fn mark(filter: &mut [u32], key: u32)
    requires { filter_length ≤ length filter.old }
    ensures { filter.new ≡ with_mark filter.old key }
{
    let i = word_of(key);
    filter[i] = with_bit(filter[i], bit_of(key));
}

// No type before t has this key. All are compared, with no way out of the loop: so several are compared at once.
fn is_new_key(filter: &[u32], t: TypeNo, key: u32) -> bool
    requires { t.0 ≤ length filter.now }
    ensures { result ≡ new_key t.0 filter.now key }
{
    let mut new = true;
    for i in 0..usize::from(t.0) {
        new &= key != filter[i];
    }
    new
}

// A type before t has this key.
pub fn has_key(filter: &[u32], t: TypeNo, key: u32) -> bool
    requires { Filled t.0 filter.now }
    ensures { result ≡ not (new_key t.0 filter.now key) }
{
    is_marked(filter, key) && !is_new_key(filter, t, key)
}

// The key of the type t is put into the filter.
pub fn put_key(filter: &mut [u32], t: TypeNo, key: u32)
    requires { (t.0 < key_count) × (filter_length ≤ length filter.old) }
    ensures { filter.new ≡ with_key filter.old t.0 key }
{
    filter[t.0 as usize] = key;
    mark(filter, key);
}
