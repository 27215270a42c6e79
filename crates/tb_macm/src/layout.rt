//! The words of globals and static objects, laid out in a memory.

ghost use Rattle.std.specs.Prelude.{◌≡◌, ◌+◌, ◌<◌, ◌≤◌, ◌^◌, length, map, IfOk};
ghost use Rattle.tb_mac.specs.Layout.{static_size, statics_size, addresses_from, static_tag, const_word, static_words, all_words, static_pointer};
ghost use Rattle.tb_mac.specs.MacStep.{put_words};
ghost use Rattle.tb_mac.specs.Objects.{padded_size, raw_words, bytes_words, vector_words};
ghost use Rattle.tb_mac.specs.Objects.{raw_size};
ghost use Rattle.tb_macm.specs.calls.Loads.{byte_at, laid_out};

use super::objects::fill;
use std::alloc::Global;
use tb_mac::Word;
use tb_prim::{Const, NoMemory, Static};

fn padded_size(n: u64) -> u64
    requires { n < 2 ^ 63 + 9 }
    ensures { result ≡ padded_size n }
{
    n + n % 2
}

/// The words of a static object, padding included.
pub fn static_size(object: &Static) -> u64
    ensures { result ≡ static_size object.now }
{
    match object {
        Static::Pair(_, _) => 2,
        Static::Vector(elements) => padded_size(elements.as_slice().len() as u64 + 1),
        Static::Str(bytes) => padded_size((bytes.as_slice().len() as u64 + 3) / 4 + 1),
        Static::Sym(bytes) => padded_size((bytes.as_slice().len() as u64 + 3) / 4 + 1),
    }
}

/// The words of static objects, padding included.
pub fn statics_size(statics: &[Static]) -> u64
    requires { statics_size statics.now < 2 ^ 32 }
    ensures { result ≡ statics_size statics.now }
{
    let mut sum = 0;
    for object in statics {
        sum += static_size(object);
    }
    sum
}

/// Where static objects stand that follow one another from a word on.
pub fn addresses(alloc: Global, at: u32, statics: &[Static]) -> Result<Vec<u32>, NoMemory>
    requires { at + statics_size statics.now < 2 ^ 32 }
    ensures { IfOk result (λ v. v.items ≡ addresses_from at statics.now) }
{
    let mut all = Vec::with_capacity(alloc, statics.len())?;
    let mut next = at;
    for object in statics {
        all.push(next)?;
        next += static_size(object) as u32;
    }
    Ok(all)
}

fn static_tag(object: &Static) -> u8
    ensures { result ≡ static_tag object.now }
{
    match object {
        Static::Pair(_, _) => 1,
        Static::Vector(_) => 3,
        Static::Str(_) => 5,
        Static::Sym(_) => 5,
    }
}

/// The pointer to a static object.
fn static_pointer(statics: &[Static], addresses: &[u32], number: u32) -> Word
    ensures { result ≡ static_pointer statics.now addresses.now number }
{
    let tag = match statics.get(number as usize) {
        Some(object) => static_tag(object),
        None => 0,
    };
    let at = match addresses.get(number as usize) {
        Some(at) => *at,
        None => 0,
    };
    Word::Pointer(tag, at)
}

/// The word of a constant.
fn const_word(statics: &[Static], addresses: &[u32], constant: Const) -> Word
    ensures { result ≡ const_word statics.now addresses.now constant }
{
    match constant {
        Const::Fix(v) => Word::Fix(v),
        Const::Char(c) => Word::Char(c),
        Const::Bool(true) => Word::Special(1),
        Const::Bool(false) => Word::Special(0),
        Const::Nil => Word::Special(2),
        Const::Unspecified => Word::Special(3),
        Const::Undefined => Word::Special(4),
        Const::Stat(n) => static_pointer(statics, addresses, n),
    }
}

/// Writes the words of constants from `at` on.
fn put_consts(
    memory: &mut [Word],
    at: usize,
    statics: &[Static],
    addresses: &[u32],
    constants: &[Const],
)
    requires { at + length constants.now ≤ length memory.old }
    ensures { memory.new ≡ put_words at (map (const_word statics.now addresses.now) constants.now) memory.old }
{
    for (k, constant) in constants.iter().enumerate() {
        memory[at + k] = const_word(statics, addresses, *constant);
    }
}

fn byte_at(bytes: &[u8], k: usize) -> u8
    ensures { result ≡ byte_at bytes.now k }
{
    if k < bytes.len() { bytes[k] } else { 0 }
}

/// Writes bytes in raw words from `at` on, zeros after the last.
fn put_raw(memory: &mut [Word], at: usize, bytes: &[u8])
    requires { at + raw_size (length bytes.now) ≤ length memory.old }
    ensures { memory.new ≡ put_words at (raw_words bytes.now) memory.old }
{
    for k in 0..(bytes.len() + 3) / 4 {
        memory[at + k] = Word::Raw([
            byte_at(bytes, 4 * k),
            byte_at(bytes, 4 * k + 1),
            byte_at(bytes, 4 * k + 2),
            byte_at(bytes, 4 * k + 3),
        ]);
    }
}

/// Writes a vector of constants from `at` on.
#[tactic(auto, using(crate::proofs::Layouts::put_vector_words))]
fn put_vector(
    memory: &mut [Word],
    at: usize,
    statics: &[Static],
    addresses: &[u32],
    constants: &[Const],
)
    requires room { at + padded_size (length constants.now + 1) ≤ length memory.old }
    requires small { length memory.old < 2 ^ 32 }
    ensures { memory.new ≡ put_words at (vector_words (map (const_word statics.now addresses.now) constants.now)) memory.old }
{
    let count = constants.len();
    memory[at] = Word::Header(18, count as u32);
    put_consts(memory, at + 1, statics, addresses, constants);
    fill(memory, at + 1 + count, (count + 1) % 2, Word::Fix(0));
}

/// Writes a string or symbol from `at` on, by its kind.
#[tactic(auto, using(crate::proofs::Layouts::put_bytes_words))]
fn put_bytes(memory: &mut [Word], at: usize, kind: u8, bytes: &[u8])
    requires room { at + padded_size (raw_size (length bytes.now) + 1) ≤ length memory.old }
    requires small { length memory.old < 2 ^ 30 }
    ensures { memory.new ≡ put_words at (bytes_words kind bytes.now) memory.old }
{
    let raw = (bytes.len() + 3) / 4;
    memory[at] = Word::Header(kind, bytes.len() as u32);
    put_raw(memory, at + 1, bytes);
    fill(memory, at + 1 + raw, (raw + 1) % 2, Word::Fix(0));
}

/// Writes a static object from `at` on.
fn put_static(
    memory: &mut [Word],
    at: usize,
    statics: &[Static],
    addresses: &[u32],
    object: &Static,
)
    requires room { at + static_size object.now ≤ length memory.old }
    requires small { length memory.old < 2 ^ 30 }
    ensures { memory.new ≡ put_words at (static_words statics.now addresses.now object.now) memory.old }
{
    match object {
        Static::Pair(a, b) => {
            memory[at] = const_word(statics, addresses, *a);
            memory[at + 1] = const_word(statics, addresses, *b);
        }
        Static::Vector(elements) => put_vector(memory, at, statics, addresses, elements.as_slice()),
        Static::Str(bytes) => put_bytes(memory, at, 34, bytes.as_slice()),
        Static::Sym(bytes) => put_bytes(memory, at, 42, bytes.as_slice()),
    }
}

/// Writes the static objects from `at` on.
fn put_statics(memory: &mut [Word], at: usize, statics: &[Static], addresses: &[u32])
    requires room { at + statics_size statics.now ≤ length memory.old }
    requires small { length memory.old < 2 ^ 30 }
    ensures { memory.new ≡ put_words at (all_words statics.now addresses.now statics.now) memory.old }
{
    let mut next = at;
    for object in statics {
        put_static(memory, next, statics, addresses, object);
        next += static_size(object) as usize;
    }
}

/// Writes so many globals, and the static objects behind them.
#[tactic(auto, using(crate::proofs::Layouts::put_start_words))]
pub fn lay_out(memory: &mut [Word], globals: usize, statics: &[Static], addresses: &[u32])
    requires room { padded_size globals + statics_size statics.now ≤ length memory.old }
    requires small { length memory.old < 2 ^ 30 }
    ensures { memory.new ≡ put_words 0 (laid_out globals statics.now addresses.now) memory.old }
{
    fill(memory, 0, globals, Word::Special(4));
    fill(memory, globals, globals % 2, Word::Fix(0));
    put_statics(memory, globals + globals % 2, statics, addresses);
}
