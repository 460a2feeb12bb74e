// What a line of the input is answered with, as a line of JSON: an object for a complete message or for a refused line, and nothing for an unfinished one.
// The record lies in lent bytes, as crate `record_bytes` has it, and is changed where it lies.
#![tactic(auto)]

ghost use Rattle.std.specs.Prelude.{◌≡◌, [], List, ◌+◌, ◌-◌, ◌^◌, min, ℕ, take, replicate};
ghost use Rattle.text_out.specs.Text.{put};
ghost use Rattle.text_out.specs.Output.{stands, Puts};
ghost use Rattle.refusal.specs.Refusal.{row_of};
ghost use Rattle.refusal.specs.declared.Refusal.{Refusal};
ghost use Rattle.answer.specs.Answer.{outcome_in};
ghost use Rattle.answer.specs.declared.Outcome.{Outcome};
ghost use Rattle.json_told.specs.Object.{refused_object};
ghost use Rattle.json_told.specs.Answer.{other_of, about_by, about_long, shown_by, refused_tally, left_with, left_of, left_long};
ghost use Rattle.json_told.specs.Laid.{laid_in, laid_of, layout_in, Coded, Holds, shown_for, tally_for};

use text_out::Output;

// Places of the layout that the code reads and fills by itself, by their names in layout_numbers/specs/Places.
const FIRST_VALUE: usize = 0;

const SECOND_VALUE: usize = 1;

const TYPE: usize = 17;

const LINE: usize = 50;

// What is kept from line to line beside the record: the number of lines so far, and how much of the output buffer is in use.
#[derive(Clone, Copy)]
pub struct Kept {
    pub number: u64,
    pub used: usize,
}

// What is written: an object for each message and each refused line, or the messages alone.
#[derive(Clone, Copy)]
pub enum Show {
    All,
    Quiet,
}

// A line of n bytes is read, answered and counted.
pub fn answer_line(
    s: Kept,
    n: usize,
    line: &[u8],
    show: Show,
    state: &mut [u8],
    out: &mut [u8],
    tally: &mut [u64],
) -> Kept
    ensures tally_after { left_with state.new result.used out.new tally.new
        ≡ left_of show state.old result.number (take n line.now) s.used out.old tally.old }
    ensures number_value { result.number ≡ min (s.number + 1) (2 ^ 64 - 1) }
{
    let k = text_out::up_to(n, line);
    let number = s.number.saturating_add(1);
    let mut out = Output::new(out, s.used);
    tell(state, number, &line[..k], show, &mut out, tally);
    Kept {
        number,
        used: out.at,
    }
}

// A line that is too long is refused, and leaves the record, whatever it is, as it was; `line` holds its first bytes.
pub fn answer_long(s: Kept, line: &[u8], show: Show, out: &mut [u8], tally: &mut [u64]) -> Kept
    ensures by_index { (state : List ℕ) → left_with state result.used out.new tally.new
        ≡ left_long show state result.number line.now s.used out.old tally.old }
    ensures number_value { result.number ≡ min (s.number + 1) (2 ^ 64 - 1) }
{
    let number = s.number.saturating_add(1);
    summary::count(tally, 1, 0);
    let mut out = Output::new(out, s.used);
    put_long(&mut out, number, line, show);
    Kept {
        number,
        used: out.at,
    }
}

// A refused line: its number in the input, the refusal's number, and its two values, each 0 where there is none.
#[derive(Clone, Copy)]
struct RefusedLine {
    pub number: u64,
    pub code: u32,
    pub first: u64,
    pub second: u64,
}

// What is told of a refused line beside its refusal and its text.
#[derive(Clone, Copy)]
struct Beside {
    pub sender: Option<u64>,
    pub other: bool,
    pub cut: bool,
}

// A refusal of a line that is too long.
fn put_long(out: &mut Output, number: u64, line: &[u8], show: Show)
    ensures { Puts out.old out.new (shown_by show (refused_object number 1 [] (about_long line.now))) }
{
    match show {
        Show::All => {
            let refused = RefusedLine {
                number,
                code: 1,
                first: 0,
                second: 0,
            };
            let beside = Beside {
                sender: None,
                other: false,
                cut: true,
            };
            put_refused(out, refused, beside, line);
        }
        Show::Quiet => {}
    }
}

// Reads a line, the one of this number in the input, puts its answer and counts it.
fn tell(state: &mut [u8], number: u64, line: &[u8], show: Show, out: &mut Output, tally: &mut [u64])
    ensures same { out.new.buffer.ghost_name ≡ out.old.buffer.ghost_name }
    ensures is { left_with state.new out.new.at out.new.buffer.now tally.new
        ≡ left_of show state.old number line.now out.old.at out.old.buffer.now tally.old }
{
    let mut numbers = [0u64; 54];
    let mut texts = [0u8; 80];
    // who sent a line that is not decoded is found with the record as it was before the line
    let found = record_bytes::load(state);
    let code = read(state, line, number, &mut numbers, &mut texts);
    let sender = layout_answer::sender::sender_of(code, found, line);
    put_told(
        out, number, code, &numbers, &texts, sender, line, show, tally,
    );
}

// A line read over the lent record into a layout: its fifty numbers, and after them the line's number, the bits of the radio status, the code and how many
// values there are; and its texts. Answers the code.
fn read(state: &mut [u8], line: &[u8], number: u64, numbers: &mut [u64], texts: &mut [u8]) -> u32
    requires { (numbers.old ≡ replicate 54 0) × (texts.old ≡ replicate 80 0) }
    ensures { laid_in result state.new numbers.new texts.new ≡ laid_of state.old line.now number }
{
    let mut payload = [0u8; 384];
    let mut bits = [0u8; 288];
    let code = record_read::read(state, line, true, &mut payload, &mut bits, numbers, texts);
    let radio = parsers::field(&bits, 149, 19);
    let more = [number, radio, code as u64, refusal::count_of(code)];
    layout_numbers::put_numbers(numbers, LINE, &more);
    code
}

// The answer to a line that was read, by its code and its layout: a message, nothing, or a refusal, with the sender that is told of it. The code is a number
// since it is that of `record_read`, which the C interface fixes.
fn put_told(
    out: &mut Output,
    number: u64,
    code: u32,
    numbers: &[u64],
    texts: &[u8],
    sender: Option<u64>,
    line: &[u8],
    show: Show,
    tally: &mut [u64],
)
    ensures same { out.new.buffer.ghost_name ≡ out.old.buffer.ghost_name }
    ensures is { (o : Outcome) → Coded o code numbers.now
        → (stands out.new ≡ put (stands out.old) (shown_for show number sender line.now (outcome_in o) (layout_in numbers.now texts.now)))
        × (tally.new ≡ tally_for tally.old line.now (outcome_in o) numbers.now) }
{
    match code {
        0 => {
            summary::count(tally, 0, face_rows::number_at(numbers, TYPE));
            face_json::put_message(out, numbers, texts);
        }
        100 => summary::count(tally, 100, 0),
        _ => {
            let refused = RefusedLine {
                number,
                code,
                first: face_rows::number_at(numbers, FIRST_VALUE),
                second: face_rows::number_at(numbers, SECOND_VALUE),
            };
            put_refusal(out, refused, sender, line, show, tally);
        }
    }
}

// A refusal of a line, with the sender that is told of it: counted, and put where refusals are shown.
fn put_refusal(
    out: &mut Output,
    refused: RefusedLine,
    sender: Option<u64>,
    line: &[u8],
    show: Show,
    tally: &mut [u64],
)
    ensures same { out.new.buffer.ghost_name ≡ out.old.buffer.ghost_name }
    ensures is { (refusal : Refusal) → Holds refusal refused
        → (stands out.new ≡ put (stands out.old) (shown_by show (refused_object refused.number (row_of refusal).number (row_of refusal).values (about_by (row_of refusal).number sender line.now))))
        × (tally.new
        ≡ refused_tally tally.old (row_of refusal).number (other_of (row_of refusal).number line.now)) }
{
    let other = is_another(refused.code, line);
    count_refused(tally, refused.code, other);
    match show {
        Show::All => {
            let beside = Beside {
                sender,
                other,
                cut: line.len() > 100,
            };
            put_refused(out, refused, beside, line);
        }
        Show::Quiet => {}
    }
}

// A refused line more in the counts.
fn count_refused(tally: &mut [u64], code: u32, other: bool)
    ensures { tally.new ≡ refused_tally tally.old code other }
{
    summary::count(tally, code as u64, 0);
    if other {
        summary::count_other(tally);
    }
}

// Whether a line that was refused with this number is a sentence of another kind.
fn is_another(code: u32, line: &[u8]) -> bool
    ensures { result ≡ other_of code line.now }
{
    if code == 2 {
        return sentence::other::is_other(line);
    }
    false
}

// A refusal with all that is told beside it.
fn put_refused(out: &mut Output, refused: RefusedLine, beside: Beside, line: &[u8])
    ensures same { out.new.buffer.ghost_name ≡ out.old.buffer.ghost_name }
    ensures is { (refusal : Refusal) → Holds refusal refused
        → stands out.new ≡ put (stands out.old) (refused_object refused.number (row_of refusal).number (row_of refusal).values
        (record { sender = beside.sender; other = beside.other; text = line.now; cut = beside.cut })) }
{
    let shown = text_out::up_to(100, line);
    let count = refusal::count_of(refused.code);
    let [sender_there, sender] = layout_numbers::two(beside.sender);
    let values = [refused.first, refused.second];
    let more = [
        refused.number,
        0,
        refused.code as u64,
        count,
        shown as u64,
        u64::from(beside.cut),
        sender_there,
        sender,
        u64::from(beside.other),
    ];
    let mut numbers = [0u64; 59];
    layout_numbers::put_numbers(&mut numbers, FIRST_VALUE, &values);
    layout_numbers::put_numbers(&mut numbers, LINE, &more);
    face_json::put_refused(out, &numbers, &line[..shown]);
}
