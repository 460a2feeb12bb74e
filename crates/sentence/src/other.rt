// NMEA 0183 sentences of another kind: a receiver passes on those of a GPS or a compass too. Whoever is told that a line breaks document 01's rules can ask
// whether it is one of them, whole and undamaged.
ghost use Rattle.std.specs.Prelude.{◌≡◌, true, false, ◌≤◌, length};
ghost use Rattle.scan.specs.Rule.{on_read, read};
ghost use Rattle.scan.specs.Answers.{place_in};
ghost use Rattle.sentence.specs.Other.{is_plain, all_plain, is_ours, is_anothers, anothers_name, ending, suffix, other_sentence};

// Whether a line is a well-formed sentence of another kind.
#[tactic(auto, unfolding(crate::specs::Other::other_sentence, crate::specs::Other::other))]
pub fn is_other(line: &[u8]) -> bool
    ensures { result ≡ other_sentence line.now }
{
    let at = crate::tag_block(line);
    let Some(start) = crate::start_mark(line, at) else {
        return false;
    };
    let Some(found) = scan::sum_to_star(line, start) else {
        return false;
    };
    let Some(fields) = anothers_name(line, start) else {
        return false;
    };
    checks(line, fields, found)
}

// A first field of another kind, and its comma.
#[tactic(auto, unfolding(crate::specs::Other::anothers_name))]
fn anothers_name(line: &[u8], at: usize) -> Option<usize>
    ensures { place_in at result ≡ anothers_name line.now at }
{
    let end = scan::take_near(line, at, b',');
    if end < line.len() && is_anothers(&line[at..end]) {
        return Some(end + 1);
    }
    None
}

// Whether a first field is of another kind.
#[tactic(auto, unfolding(crate::specs::Other::is_anothers))]
fn is_anothers(name: &[u8]) -> bool
    ensures { result ≡ is_anothers name.now }
{
    !name.is_empty() && all_plain(name) && !is_ours(name)
}

// Whether a first field is two characters and then VDM or VDO.
#[tactic(auto, unfolding(crate::specs::Other::is_ours))]
fn is_ours(name: &[u8]) -> bool
    ensures { result ≡ is_ours name.now }
{
    name.len() == 5 && name[2] == b'V' && name[3] == b'D' && (name[4] == b'M' || name[4] == b'O')
}

// Whether all bytes are digits and capital letters.
fn all_plain(name: &[u8]) -> bool
    ensures { result ≡ all_plain name.now }
{
    name.iter().all(|&b| is_plain(b))
}

// Whether a byte is a digit or a capital letter.
fn is_plain(b: u8) -> bool
    ensures { result ≡ is_plain b }
{
    ((48 <= b) & (b <= 57)) | ((65 <= b) & (b <= 90))
}

// Whether a star, two hex digits of the checksum found and nothing more end the line.
#[tactic(auto, unfolding(crate::specs::Other::suffix, scan::specs::Scan::up_to, crate::specs::Other::two_digits))]
fn checks(line: &[u8], at: usize, found: u8) -> bool
    ensures { result ≡ on_read (suffix found line.now at) (λ right _. right) (λ _. false) }
{
    let star = scan::take_until(line, at, b'*');
    if line.len() <= star {
        return false;
    }
    let first = star + 1;
    let Some((given, next)) = scan::parse_hex(line, first) else {
        return false;
    };
    next == first + 2 && ends(line, next) && given == found
}

// Whether nothing stands at a place and after it, but for a lone carriage return.
#[tactic(auto, unfolding(crate::specs::Other::ending))]
fn ends(line: &[u8], at: usize) -> bool
    ensures { result ≡ on_read (ending line.now at) (λ _ _. true) (λ _. false) }
{
    match scan::tag(line, at, b'\r') {
        Some(next) => line.len() <= next,
        None => line.len() <= at,
    }
}
