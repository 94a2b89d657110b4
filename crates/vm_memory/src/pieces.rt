// Pieces, two words each. A pair: its two values. A pointcut: the set of its labels in the second word. An advice: target of its
// body + 2^16 * environment + 2^32 * domain, and the set of its pointcut's labels.
ghost use Rattle.std.specs.Prelude.{◌≡◌, ◌<◌, ◌≤◌, length};
ghost use Rattle.calculus.specs.Limits.{advice_limit};
ghost use Rattle.base_bytes.specs.Memory.{memory_length};
ghost use Rattle.vm_machine.specs.Memory.{put_piece, piece_first, piece_second, piece_of, advice_word, advice_target, advice_env, advice_dom, installed_at, put_installed, piece_places};
ghost use Rattle.vm_memory.specs.View.{memory_of, Holds};

use crate::words::{INSTALLED, PIECE_PLACES, PIECES, put_word, word};
use read_records::numbers::DomainNo;
use vm_words::code::{DOMAINS, TARGETS, in_field};
use vm_words::value::{ENVIRONMENT, ENVIRONMENTS, body};

// Where the domain of an advice begins in its word.
const DOMAIN: u64 = ENVIRONMENT * ENVIRONMENTS;

pub fn put_piece(work: &mut [u8], p: usize, a: u64, b: u64)
    requires { (memory_length ≤ length work.old) × (p < piece_places) }
    ensures { Holds (put_piece p a b (memory_of work.old)) work.old work.new }
{
    put_word(work, PIECES + 2 * p, a);
    put_word(work, PIECES + 2 * p + 1, b);
}

pub fn piece_first(work: &[u8], p: usize) -> u64
    requires { (memory_length ≤ length work.now) × (p < piece_places) }
    ensures { result ≡ piece_first (memory_of work.now) p }
{
    word(work, PIECES + 2 * p)
}

pub fn piece_second(work: &[u8], p: usize) -> u64
    requires { (memory_length ≤ length work.now) × (p < piece_places) }
    ensures { result ≡ piece_second (memory_of work.now) p }
{
    word(work, PIECES + 2 * p + 1)
}

// The piece that a pair, pointcut or advice names.
pub fn piece_of(v: u64) -> usize
    ensures { result ≡ piece_of v }
{
    body(v) as usize % PIECE_PLACES
}

pub fn advice_word(target: usize, env: usize, dom: DomainNo) -> u64
    requires { (target < 65536) × (env < 65536) }
    ensures { result ≡ advice_word target env dom.0 }
{
    (target as u64) + ENVIRONMENT * (env as u64) + DOMAIN * u64::from(dom.0)
}

pub fn advice_target(w: u64) -> usize
    ensures { result ≡ advice_target w }
{
    (w % TARGETS) as usize
}

pub fn advice_env(w: u64) -> usize
    ensures { result ≡ advice_env w }
{
    in_field::<ENVIRONMENT, ENVIRONMENTS>(w) as usize
}

pub fn advice_dom(w: u64) -> DomainNo
    ensures { result.0 ≡ advice_dom w }
{
    DomainNo(in_field::<DOMAIN, DOMAINS>(w) as u16)
}

// The piece of installed advice i, from 0 on.
pub fn installed_at(work: &[u8], i: usize) -> usize
    requires { (memory_length ≤ length work.now) × (i < advice_limit) }
    ensures { result ≡ installed_at (memory_of work.now) i }
{
    word(work, INSTALLED + i) as usize % PIECE_PLACES
}

pub fn put_installed(work: &mut [u8], i: usize, p: usize)
    requires { (memory_length ≤ length work.old) × (i < advice_limit) }
    ensures { Holds (put_installed i p (memory_of work.old)) work.old work.new }
{
    put_word(work, INSTALLED + i, p as u64);
}
