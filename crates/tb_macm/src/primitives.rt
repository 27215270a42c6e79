//! The primitives on words of registers and the heap.

ghost use Rattle.std.specs.Prelude.{◌≡◌, ℕ};
ghost use Rattle.tb_mac.specs.Effects.{with_length, Makes};
ghost use Rattle.tb_mac.specs.Objects.{new_vector, new_string};
ghost use Rattle.tb_macm.specs.calls.Quiet.{IsWithin, effect_of};

use super::Step;
use super::answer::Answer;
use super::arithmetic::{
    at_most, boolean, char_of_code, character, code_of_char, difference, equal, integer,
    is_special, less, modulo, product, quotient, remainder, sum, truth,
};
use super::calls::pair_at;
use super::state::State;
use tb_mac::{MacCode, Placed, Word, is_false, same_word};
use tb_prim::{Cause, Prim};

const WRONG_TYPE: Answer = Answer::Fails(Cause::WrongType);

impl State {
    ghost use Rattle.std.specs.Prelude.{◌≡◌, ◌≢◌, ◌+◌, ◌<◌, ◌≤◌, ◌^◌, is_some};
    ghost use Rattle.tb_prim.specs.declared.primitive.Primitive.{Primitive};
    ghost use Rattle.tb_mac.specs.CodeOf.{code_of};
    ghost use Rattle.tb_mac.specs.Effects.{effect_1, effect_2, effect_3, gives_char, changes_char, gives_length, gives_truth, gives_word, with_pair, with_object, with_fix, with_index, changes_word, object_at};
    ghost use Rattle.tb_mac.specs.MacStep.{heap_of, carry_out};
    ghost use Rattle.tb_macm.specs.States.{mac_of};
    ghost use Rattle.tb_macm.specs.calls.Quiet.{Does, IsWithin, effect_of};

    /// A word of a pair: the first, or the second.
    fn part_of(&self, u: Word, part: u8) -> Answer
        requires { part ≤ 1 }
        ensures effect { effect_of result ≡ with_pair u (λ a. gives_word (heap_of (mac_of self.now) (a + part))) }
        ensures within { IsWithin self.now.heap_pointer result }
    {
        let Some(at) = pair_at(u) else {
            return WRONG_TYPE;
        };
        match self.heap_word(at as usize + part as usize) {
            Some(w) => Answer::Gives(w),
            None => Answer::NoNextStep,
        }
    }

    /// A word of the heap becomes another.
    fn change(&self, at: usize, w: Word) -> Answer
        ensures effect { effect_of result ≡ changes_word (heap_of (mac_of self.now)) at w }
        ensures within { IsWithin self.now.heap_pointer result }
    {
        match self.heap_word(at) {
            Some(_) => Answer::Changes(at, w),
            None => Answer::NoNextStep,
        }
    }

    /// A word of a pair becomes another.
    fn set_part(&self, u: Word, part: u8, v: Word) -> Answer
        requires { part ≤ 1 }
        ensures effect { effect_of result ≡ with_pair u (λ a. changes_word (heap_of (mac_of self.now)) (a + part) v) }
        ensures within { IsWithin self.now.heap_pointer result }
    {
        match pair_at(u) {
            Some(at) => self.change(at as usize + part as usize, v),
            None => WRONG_TYPE,
        }
    }

    /// The length of an object.
    fn length_of(&self, tag: u8, kind: u8, u: Word) -> Answer
        ensures effect { effect_of result ≡ gives_length (object_at (heap_of (mac_of self.now)) tag kind u) }
        ensures within { IsWithin self.now.heap_pointer result }
    {
        match self.object_at(tag, kind, u) {
            Some(object) if object.size < 536870912 => {
                Answer::Gives(Word::Fix(object.size as i32))
            }
            Some(_) => Answer::NoNextStep,
            None => WRONG_TYPE,
        }
    }

    /// An element of a vector.
    fn vector_ref(&self, u: Word, v: Word) -> Answer
        ensures effect { effect_of result ≡ effect_2 (heap_of (mac_of self.now)) Primitive.VectorRef u v }
        ensures within { IsWithin self.now.heap_pointer result }
    {
        let Some(vector) = self.object_at(3, 18, u) else {
            return WRONG_TYPE;
        };
        match v {
            Word::Fix(n) if n >= 0 && (n as u32) < vector.size => {
                match self.heap_word(vector.at as usize + 1 + n as usize) {
                    Some(w) => Answer::Gives(w),
                    None => Answer::NoNextStep,
                }
            }
            Word::Fix(_) => Answer::Fails(Cause::Range),
            _ => WRONG_TYPE,
        }
    }

    /// An element of a vector becomes another.
    fn vector_set(&self, u: Word, v: Word, w: Word) -> Answer
        ensures effect { effect_of result ≡ effect_3 (heap_of (mac_of self.now)) Primitive.VectorSet u v w }
        ensures within { IsWithin self.now.heap_pointer result }
    {
        let Some(vector) = self.object_at(3, 18, u) else {
            return WRONG_TYPE;
        };
        match v {
            Word::Fix(n) if n >= 0 && (n as u32) < vector.size => {
                self.change(vector.at as usize + 1 + n as usize, w)
            }
            Word::Fix(_) => Answer::Fails(Cause::Range),
            _ => WRONG_TYPE,
        }
    }

    /// Character number k of a string or symbol.
    fn char_at(&self, object: Placed, k: u32) -> Answer
        ensures effect { effect_of result ≡ gives_char (heap_of (mac_of self.now)) object k }
        ensures within { IsWithin self.now.heap_pointer result }
    {
        match self.heap_word(object.at as usize + 1 + (k / 4) as usize) {
            Some(Word::Raw(bytes)) => Answer::Gives(Word::Char(bytes[(k % 4) as usize])),
            _ => Answer::NoNextStep,
        }
    }

    /// A character of the string or symbol of this kind.
    fn char_ref(&self, kind: u8, u: Word, v: Word) -> Answer
        ensures effect { let heap = heap_of (mac_of self.now) in
            effect_of result ≡ with_object (object_at heap 5 kind u)
            (λ o. with_fix v (λ n. with_index n o.size (gives_char heap o))) }
        ensures within { IsWithin self.now.heap_pointer result }
    {
        let Some(string) = self.object_at(5, kind, u) else {
            return WRONG_TYPE;
        };
        match v {
            Word::Fix(n) if n >= 0 && (n as u32) < string.size => self.char_at(string, n as u32),
            Word::Fix(_) => Answer::Fails(Cause::Range),
            _ => WRONG_TYPE,
        }
    }

    /// Character number k of a string becomes another.
    fn change_char(&self, object: Placed, k: u32, c: u8) -> Answer
        ensures effect { effect_of result ≡ changes_char (heap_of (mac_of self.now)) object k c }
        ensures within { IsWithin self.now.heap_pointer result }
    {
        let at = object.at as usize + 1 + (k / 4) as usize;
        match self.heap_word(at) {
            Some(Word::Raw(old)) => {
                let mut bytes = old;
                bytes[(k % 4) as usize] = c;
                Answer::Changes(at, Word::Raw(bytes))
            }
            _ => Answer::NoNextStep,
        }
    }

    /// A character of a string becomes another.
    fn char_set(&self, u: Word, v: Word, w: Word) -> Answer
        ensures effect { effect_of result ≡ effect_3 (heap_of (mac_of self.now)) Primitive.StringSet u v w }
        ensures within { IsWithin self.now.heap_pointer result }
    {
        let Some(string) = self.object_at(5, 34, u) else {
            return WRONG_TYPE;
        };
        match (v, w) {
            (Word::Fix(n), Word::Char(c)) if n >= 0 && (n as u32) < string.size => {
                self.change_char(string, n as u32, c)
            }
            (Word::Fix(_), Word::Char(_)) => Answer::Fails(Cause::Range),
            _ => WRONG_TYPE,
        }
    }

    /// The word points to an object of this kind.
    fn is_object(&self, tag: u8, kind: u8, u: Word) -> Answer
        ensures effect { effect_of result ≡ gives_truth (is_some (object_at (heap_of (mac_of self.now)) tag kind u)) }
        ensures within { IsWithin self.now.heap_pointer result }
    {
        truth(self.object_at(tag, kind, u).is_some())
    }

    /// The primitives of one operand but `write-char`.
    pub fn unary(&self, prim: Prim, u: Word) -> Answer
        requires { prim ≢ Primitive.WriteChar }
        ensures effect { effect_of result ≡ effect_1 (heap_of (mac_of self.now)) prim u }
        ensures within { IsWithin self.now.heap_pointer result }
    {
        match prim {
            Prim::Car => self.part_of(u, 0),
            Prim::Cdr => self.part_of(u, 1),
            Prim::IsPair => truth(pair_at(u).is_some()),
            Prim::IsNull => is_special(u, 2),
            Prim::Not => truth(is_false(u)),
            Prim::IsBoolean => boolean(u),
            Prim::IsSymbol => self.is_object(5, 42, u),
            Prim::IsChar => character(u),
            Prim::IsString => self.is_object(5, 34, u),
            Prim::IsVector => self.is_object(3, 18, u),
            Prim::IsProcedure => self.is_object(7, 50, u),
            Prim::IsInteger => integer(u),
            Prim::IsEof => is_special(u, 5),
            Prim::CharToInt => code_of_char(u),
            Prim::IntToChar => char_of_code(u),
            Prim::MakeVector => new_vector(u),
            Prim::VectorLength => self.length_of(3, 18, u),
            Prim::MakeString => new_string(u),
            Prim::StringLength => self.length_of(5, 34, u),
            Prim::SymbolLength => self.length_of(5, 42, u),
            _ => Answer::NoNextStep,
        }
    }

    /// The primitives of two operands.
    pub fn binary(&self, prim: Prim, u: Word, v: Word) -> Answer
        ensures effect { effect_of result ≡ effect_2 (heap_of (mac_of self.now)) prim u v }
        ensures within { IsWithin self.now.heap_pointer result }
    {
        match prim {
            Prim::Cons => Answer::Pair(u, v),
            Prim::SetCar => self.set_part(u, 0, v),
            Prim::SetCdr => self.set_part(u, 1, v),
            Prim::Eq => truth(same_word(u, v)),
            Prim::Add => sum(u, v),
            Prim::Sub => difference(u, v),
            Prim::Mul => product(u, v),
            Prim::Quotient => quotient(u, v),
            Prim::Remainder => remainder(u, v),
            Prim::Modulo => modulo(u, v),
            Prim::NumEq => equal(u, v),
            Prim::Less => less(u, v),
            Prim::Greater => less(v, u),
            Prim::LessEq => at_most(u, v),
            Prim::GreaterEq => at_most(v, u),
            Prim::VectorRef => self.vector_ref(u, v),
            Prim::StringRef => self.char_ref(34, u, v),
            Prim::SymbolRef => self.char_ref(42, u, v),
            _ => Answer::NoNextStep,
        }
    }

    /// The primitives of three operands.
    pub fn ternary(&self, prim: Prim, u: Word, v: Word, w: Word) -> Answer
        ensures effect { effect_of result ≡ effect_3 (heap_of (mac_of self.now)) prim u v w }
        ensures within { IsWithin self.now.heap_pointer result }
    {
        match prim {
            Prim::VectorSet => self.vector_set(u, v, w),
            Prim::StringSet => self.char_set(u, v, w),
            _ => Answer::NoNextStep,
        }
    }

    /// Carries out an answer; a register gets what it gives.
    pub fn carry_out(&mut self, code: &MacCode, a: u8, answer: Answer) -> Step
        requires register { a ≤ 16 }
        requires room { self.old.pc < 2 ^ 24 }
        requires within { IsWithin self.old.heap_pointer answer }
        ensures { Does (carry_out (code_of code.now) a (mac_of self.old) (effect_of answer)) (mac_of self.old)
            (mac_of self.new) result }
    {
        match answer {
            Answer::Gives(w) => self.set_register(a, w),
            Answer::Pair(u, v) => self.make_two(1, u, v, a),
            Answer::Vector(n) => self.make_vector(n, a),
            Answer::Text(n) => self.make_string(n, a),
            Answer::Changes(at, w) => {
                self.memory[at] = w;
                self.set_register(a, Word::Special(3))
            }
            Answer::Fails(cause) => self.fail(code, cause),
            Answer::NoNextStep => self.stuck(),
        }
    }
}

/// A new vector of so many elements.
fn new_vector(u: Word) -> Answer
    ensures effect { effect_of result ≡ with_length u (λ n. Makes 3 (new_vector n)) }
    ensures within { (pointer : ℕ) → IsWithin pointer result }
{
    match u {
        Word::Fix(n) if n >= 0 && n < 16777216 => Answer::Vector(n as u32),
        Word::Fix(_) => Answer::Fails(Cause::Range),
        _ => WRONG_TYPE,
    }
}

/// A new string of so many characters.
fn new_string(u: Word) -> Answer
    ensures effect { effect_of result ≡ with_length u (λ n. Makes 5 (new_string n)) }
    ensures within { (pointer : ℕ) → IsWithin pointer result }
{
    match u {
        Word::Fix(n) if n >= 0 && n < 16777216 => Answer::Text(n as u32),
        Word::Fix(_) => Answer::Fails(Cause::Range),
        _ => WRONG_TYPE,
    }
}
