// What a line tells, in numbers and texts at once: a refusal, a line of an unfinished message, or a complete message.
#![tactic(auto)]

ghost use Rattle.std.specs.Prelude.{◌≡◌, List, ℕ};
ghost use Rattle.answer.specs.Answer.{refuses, complete_of, unfinished_of};
ghost use Rattle.layout_answer.specs.Answer.{told_in, told_of};
ghost use Rattle.layout_told.specs.Told.{Hears};

use answer::Decode;
use refusal::Refusal;
use sentence::AisSentence;

// A refusal, told.
pub fn tell_refused(refusal: Refusal, numbers: &mut [u64], texts: &mut [u8]) -> u32
    ensures { told_in result numbers.new texts.new ≡ told_of (refuses refusal) numbers.old texts.old }
{
    let told = answer::refuse_plainly(refusal);
    layout_answer::tell_plain(told, numbers, texts)
}

// A line of an unfinished message, told.
pub fn tell_unfinished(
    s: AisSentence,
    own: &[u8],
    payload: &mut [u8],
    numbers: &mut [u64],
    texts: &mut [u8],
) -> u32
    ensures { (bits : List ℕ)
        → Hears (unfinished_of s own.now payload.old bits) numbers.old texts.old result payload.new bits
        numbers.new texts.new }
{
    let told = answer::unfinished_plainly(s, own, payload);
    layout_answer::tell_plain(told, numbers, texts)
}

// A complete message, told. One that is not decoded has no message to be made, handed on and laid out.
pub fn tell_complete(
    s: AisSentence,
    handed: &[u8],
    decode: Decode,
    payload: &mut [u8],
    bits: &mut [u8],
    numbers: &mut [u64],
    texts: &mut [u8],
) -> u32
    ensures { Hears (complete_of s handed.now decode payload.old bits.old) numbers.old
        texts.old result payload.new bits.new numbers.new texts.new }
{
    match decode {
        Decode::On => {
            let told = answer::complete(s, handed, Decode::On, payload, bits);
            return layout_answer::tell(told, numbers, texts);
        }
        Decode::Off => {
            let told = answer::complete_plainly(s, handed, payload);
            return layout_answer::tell_plain(told, numbers, texts);
        }
    }
}
