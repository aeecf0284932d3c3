//! The words of the command line.
ghost use Rattle.std.specs.Prelude.{◌≡◌, ◌≢◌, ◌≤◌, ◌<◌, ◌&&◌, IfSome, IsTrue, length, map, nat_lt, nat_le, option_map, string_bytes};
ghost use Rattle.std.specs.List.{list_all};
ghost use Rattle.play_core.specs.Words as grammar;

use plain_text::parse_number;

/// What the words ask for: the two files to write, the number of blocks (1 to 1048576) and of places (1 to 1000000), or `None` where the
/// word is `-`, and the names of 1 to 256 scripts.
#[derive(Clone, Copy)]
pub(crate) struct PlayRequest<'a> {
    pub out: &'a str,
    pub order: &'a str,
    pub blocks: Option<u32>,
    pub places: Option<u32>,
    pub scripts: &'a [String],
}

/// What the words ask for, and `None` where they are not of the grammar.
pub(crate) fn read_words(words: &[String]) -> Option<PlayRequest<'_>>
    ensures asked { option_map grammar.request_data result ≡ grammar.requested_by (map string_bytes words.now) }
    ensures request { IfSome result grammar.IsRequest }
{
    if words.len() < 4 {
        return None;
    }
    read_five(&words[0], &words[1], &words[2], &words[3], &words[4..])
}

fn read_five<'a>(
    out: &'a str,
    order: &'a str,
    blocks: &str,
    places: &str,
    scripts: &'a [String],
) -> Option<PlayRequest<'a>>
    ensures asked { option_map grammar.request_data result
        ≡ grammar.request_of out.entry.now order.entry.now blocks.now places.now (map string_bytes scripts.entry.now) }
    ensures request { IfSome result grammar.IsRequest }
{
    if !are_files(out, order) || !are_scripts(out, order, scripts) {
        return None;
    }
    let blocks = choice(blocks, 1, 1_048_576)?;
    let places = choice(places, 1, 1_000_000)?;
    Some(PlayRequest {
        out,
        order,
        blocks,
        places,
        scripts,
    })
}

// `-`, or a number within these bounds.
fn choice(word: &str, least: u32, most: u32) -> Option<Option<u32>>
    ensures value { result ≡ grammar.choice least most word.now }
    ensures range { IfSome result (λ choice. IfSome choice (λ n. (least ≤ n) × (n ≤ most))) }
{
    if word == "-" {
        return Some(None);
    }
    match parse_number(word.as_bytes(), least, most) {
        Some(number) => Some(Some(number)),
        None => None,
    }
}

fn are_files(out: &str, order: &str) -> bool
    ensures value { result ≡ grammar.are_files out.now order.now }
    ensures differ { IsTrue result → out.now ≢ order.now }
{
    !out.is_empty() && !order.is_empty() && out != order
}

fn are_scripts(out: &str, order: &str, scripts: &[String]) -> bool
    ensures value { result ≡ grammar.are_scripts out.now order.now (map string_bytes scripts.now) }
    ensures many { IsTrue result → (1 ≤ length scripts.now) × (length scripts.now ≤ 256) }
{
    has_valid_count(scripts) && have_own_names(out, order, scripts)
}

fn has_valid_count(scripts: &[String]) -> bool
    ensures value { result ≡ (nat_lt 0 (length (map string_bytes scripts.now)) && nat_le (length (map string_bytes scripts.now)) 256) }
    ensures many { IsTrue result → (1 ≤ length scripts.now) × (length scripts.now ≤ 256) }
{
    !scripts.is_empty() && scripts.len() <= 256
}

fn have_own_names(out: &str, order: &str, scripts: &[String]) -> bool
    ensures { result ≡ list_all (λ name. grammar.is_script out.now order.now (string_bytes name)) scripts.now }
{
    scripts.iter().all(|name| is_script(out, order, name))
}

// Whether a script may have this name: it is not empty, and neither of the two files that are written.
fn is_script(out: &str, order: &str, name: &str) -> bool
    ensures { result ≡ grammar.is_script out.now order.now name.now }
{
    !name.is_empty() && out != name && order != name
}
