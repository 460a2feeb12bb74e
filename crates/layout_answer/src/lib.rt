// What a call answers: its code, 50 numbers (the values of its outcome, its sentence, its message) and 80 bytes of text.
#![tactic(auto)]

pub mod sender;
pub mod whole;

ghost use Rattle.std.specs.Prelude.{◌≡◌, length};
ghost use Rattle.refusal.specs.Words.{number_in};
ghost use Rattle.armour.specs.Unarmor.{unarmored_in};
ghost use Rattle.answer.specs.Answer.{outcome_in, plainly};
ghost use Rattle.layout_answer.specs.Sentence.{code_of, values_of, value_count, count_of, talker_number, report_number, sentence_numbers};
ghost use Rattle.text_out.specs.Text.{text, put};
ghost use Rattle.layout_message.specs.Message.{message_texts};
ghost use Rattle.layout_answer.specs.Answer.{answer_numbers, told_in, told_of};

use answer::{Answer, Outcome, Plain, Sentence};
use layout_numbers::two;
use refusal::Refusal;
use sentence::{AisReportType, TalkerId};
use text_out::Output;

// The code of an outcome: the number that C reads.
fn code(outcome: Outcome) -> u32
    ensures { result ≡ code_of (outcome_in outcome) }
{
    match outcome {
        Outcome::Complete => 0,
        Outcome::Unfinished => 100,
        Outcome::Refused(refusal) => u32::from(refusal.number()),
    }
}

// A refusal's values.
fn of_refusal(refusal: Refusal) -> [u64; 2]
    ensures { result ≡ values_of (outcome_in (Outcome.Refused refusal)) }
{
    let v = refusal.values();
    [v.first, v.second]
}

// An outcome's values.
fn values(outcome: Outcome) -> [u64; 2]
    ensures { result ≡ values_of (outcome_in outcome) }
{
    match outcome {
        Outcome::Complete => [0, 0],
        Outcome::Unfinished => [0, 0],
        Outcome::Refused(refusal) => of_refusal(refusal),
    }
}

// How many values it has, as C has it.
pub fn value_count(outcome: Outcome) -> u64
    ensures { result ≡ value_count (outcome_in outcome) }
{
    match outcome {
        Outcome::Complete => 0,
        Outcome::Unfinished => 0,
        Outcome::Refused(refusal) => refusal.values().count,
    }
}

// The code of what answers with a count of bytes, unarmoring alone and the writer: 0, or the refusal's number.
pub fn counted_code(r: Result<usize, Refusal>) -> u32
    ensures { result ≡ number_in (unarmored_in r) }
{
    match r {
        Ok(_) => 0,
        Err(refusal) => u32::from(refusal.number()),
    }
}

// Its value: how many bytes there are, or the refusal's first, 0 where it has none.
pub fn counted(r: Result<usize, Refusal>) -> u64
    ensures { result ≡ count_of (unarmored_in r) }
{
    match r {
        Ok(n) => n as u64,
        Err(refusal) => refusal.values().first,
    }
}

// A talker. Not `From<TalkerId>`: the numbers are the layout's, and the crate of `TalkerId` knows none of them.
fn of_talker(talker: TalkerId) -> u64
    ensures { result ≡ talker_number talker }
{
    match talker {
        TalkerId::Unknown => 0,
        TalkerId::AB => 1,
        TalkerId::AD => 2,
        TalkerId::AI => 3,
        TalkerId::AN => 4,
        TalkerId::AR => 5,
        TalkerId::AS => 6,
        TalkerId::AT => 7,
        TalkerId::AX => 8,
        TalkerId::BS => 9,
        TalkerId::SA => 10,
    }
}

// A report type, in the same way.
fn of_report(report: AisReportType) -> u64
    ensures { result ≡ report_number report }
{
    match report {
        AisReportType::Unknown => 0,
        AisReportType::VDM => 1,
        AisReportType::VDO => 2,
    }
}

// A sentence.
fn of_sentence(s: Sentence) -> [u64; 14]
    ensures { result ≡ sentence_numbers s }
{
    let [id_there, id] = two(s.message_id.map(u64::from));
    let [channel_there, channel] = two(s.channel.map(u64::from));
    let [true_type_there, true_type] = two(s.true_type.map(u64::from));
    [
        of_talker(s.talker_id),
        of_report(s.report_type),
        s.num_fragments as u64,
        s.fragment_number as u64,
        id_there,
        id,
        channel_there,
        channel,
        s.fill_bit_count as u64,
        s.message_type as u64,
        true_type_there,
        true_type,
        s.payload_len as u64,
        s.sent_bits as u64,
    ]
}

// All that an answer tells: each stands first in what is lent for it, and what does not fit is left out.
pub fn tell(a: Answer, numbers: &mut [u64], texts: &mut [u8]) -> u32
    ensures texts_after { told_in result numbers.new texts.new ≡ told_of a numbers.old texts.old }
    ensures message_len { length (message_texts a.message) ≡ 80 }
{
    let outcome = a.outcome;
    let message = a.message;
    put_answer(numbers, 0, a);
    layout_message::put_texts(&mut Output::new(texts, 0), message);
    code(outcome)
}

// An answer's numbers.
fn put_answer(out: &mut [u64], at: usize, a: Answer) -> usize
    ensures { text result out.new ≡ put (text at out.old) (answer_numbers a) }
{
    let outcome = a.outcome;
    let sentence = a.sentence;
    let message = a.message;
    let values = values(outcome);
    let heard = of_sentence(sentence);
    let b = layout_numbers::put_numbers(out, at, &values);
    let c = layout_numbers::put_numbers(out, b, &heard);
    layout_message::put_message(out, c, message)
}

// The same of an answer whose message tells nothing. Its zeros are put in two runs, each short enough to be put without a call.
pub fn tell_plain(a: Plain, numbers: &mut [u64], texts: &mut [u8]) -> u32
    ensures { told_in result numbers.new texts.new ≡ told_of (plainly a) numbers.old texts.old }
{
    let outcome = a.outcome;
    let sentence = a.sentence;
    let zeros = [0u64; 17];
    let values = values(outcome);
    let heard = of_sentence(sentence);
    let b = layout_numbers::put_numbers(numbers, 0, &values);
    let c = layout_numbers::put_numbers(numbers, b, &heard);
    let d = layout_numbers::put_numbers(numbers, c, &zeros);
    layout_numbers::put_numbers(numbers, d, &zeros);
    layout_message::put_no_texts(&mut Output::new(texts, 0));
    code(outcome)
}
