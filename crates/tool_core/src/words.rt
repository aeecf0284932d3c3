//! The words that the program understands.

ghost use Rattle.std.specs.Prelude.{◌≡◌, ◌≤◌, ◌∷◌, IfSome, Option, map, option_map, string_bytes};
ghost use Rattle.tool_core.specs.Words as spec;
ghost use Rattle.tool_core.specs.Words.{request_data, requested_by, request_of, request_of_generated, request_of_order, bench_of};
ghost use Rattle.tool_core.specs.Words.{bench_of_words, file_of_words, gen_of, gen_of_words, pack_of_words, pick_of};
ghost use Rattle.tool_core.specs.Words.{pick_of_words, replay_of_words, verify_of_words, IsInRange};

use crate::seed::seed_of;
use plain_text::parse_number;

/// What the words request.
#[derive(Clone, Copy)]
pub enum Request<'a> {
    /// One line for each SysEx message of a file.
    Check {
        file: &'a str,
    },
    /// The names of the voices of a file's first cartridge.
    List {
        file: &'a str,
    },
    /// The voice of a slot of a file's first cartridge, written as a message.
    Pick {
        file: &'a str,
        slot: u8,
        out: &'a str,
    },
    /// The first voices of some files, written as the message of a cartridge.
    Pack {
        out: &'a str,
        files: &'a [String],
    },
    /// The sound of an order.
    Replay {
        order: &'a str,
        out: &'a str,
    },
    /// Whether a file is the sound of an order.
    Verify {
        order: &'a str,
        sound: &'a str,
    },
    /// So many scripts of so many commands each, generated from a seed.
    Gen {
        seed: u64,
        scripts: u32,
        commands: u32,
    },
    /// How four generated scripts sound for so many blocks.
    Bench {
        seed: u64,
        blocks: u32,
    },
}

/// What the words request, and `None` where they are not of the grammar.
pub(crate) fn read_words(words: &[String]) -> Option<Request<'_>>
    ensures request { option_map request_data result ≡ requested_by (map string_bytes words.entry.now) }
    ensures range { IfSome result IsInRange }
{
    if words.is_empty() {
        return None;
    }
    read_command(&words[0], &words[1..])
}

fn read_command<'a>(command: &str, words: &'a [String]) -> Option<Request<'a>>
    ensures request { option_map request_data result ≡ request_of command.now (map string_bytes words.entry.now) }
    ensures range { IfSome result IsInRange }
{
    if is_check(command) {
        return read_check(words);
    }
    if is_list(command) {
        return read_list(words);
    }
    if is_pick(command) {
        return read_pick(words);
    }
    if is_pack(command) {
        return read_pack(words);
    }
    read_order_command(command, words)
}

fn read_order_command<'a>(command: &str, words: &'a [String]) -> Option<Request<'a>>
    ensures request { option_map request_data result ≡ request_of_order command.now (map string_bytes words.entry.now) }
    ensures range { IfSome result IsInRange }
{
    if is_replay(command) {
        return read_replay(words);
    }
    if is_verify(command) {
        return read_verify(words);
    }
    read_generator_command(command, words)
}

fn read_generator_command<'a>(command: &str, words: &'a [String]) -> Option<Request<'a>>
    ensures request { option_map request_data result ≡ request_of_generated command.now (map string_bytes words.entry.now) }
    ensures range { IfSome result IsInRange }
{
    if is_gen(command) {
        return read_gen(words);
    }
    if is_bench(command) {
        return read_bench(words);
    }
    None
}

#[tactic(auto, unfolding(crate::specs::Words::is_check))]
fn is_check(word: &str) -> bool
    ensures { result ≡ spec.is_check word.now }
{
    word == "check"
}

#[tactic(auto, unfolding(crate::specs::Words::is_list))]
fn is_list(word: &str) -> bool
    ensures { result ≡ spec.is_list word.now }
{
    word == "list"
}

#[tactic(auto, unfolding(crate::specs::Words::is_pick))]
fn is_pick(word: &str) -> bool
    ensures { result ≡ spec.is_pick word.now }
{
    word == "pick"
}

#[tactic(auto, unfolding(crate::specs::Words::is_pack))]
fn is_pack(word: &str) -> bool
    ensures { result ≡ spec.is_pack word.now }
{
    word == "pack"
}

#[tactic(auto, unfolding(crate::specs::Words::is_replay))]
fn is_replay(word: &str) -> bool
    ensures { result ≡ spec.is_replay word.now }
{
    word == "replay"
}

#[tactic(auto, unfolding(crate::specs::Words::is_verify))]
fn is_verify(word: &str) -> bool
    ensures { result ≡ spec.is_verify word.now }
{
    word == "verify"
}

#[tactic(auto, unfolding(crate::specs::Words::is_gen))]
fn is_gen(word: &str) -> bool
    ensures { result ≡ spec.is_gen word.now }
{
    word == "gen"
}

#[tactic(auto, unfolding(crate::specs::Words::is_bench))]
fn is_bench(word: &str) -> bool
    ensures { result ≡ spec.is_bench word.now }
{
    word == "bench"
}

fn read_check(words: &[String]) -> Option<Request<'_>>
    ensures request { option_map request_data result ≡ option_map (λ file. spec.Check file) (file_of_words (map string_bytes words.entry.now)) }
    ensures range { IfSome result IsInRange }
{
    match read_file_name(words) {
        Some(file) => Some(Request::Check { file }),
        None => None,
    }
}

fn read_list(words: &[String]) -> Option<Request<'_>>
    ensures request { option_map request_data result ≡ option_map (λ file. spec.ListVoices file) (file_of_words (map string_bytes words.entry.now)) }
    ensures range { IfSome result IsInRange }
{
    match read_file_name(words) {
        Some(file) => Some(Request::List { file }),
        None => None,
    }
}

fn read_file_name(words: &[String]) -> Option<&str>
    ensures { option_map (λ file. file.now) result ≡ file_of_words (map string_bytes words.entry.now) }
{
    if words.len() != 1 {
        return None;
    }
    let file = words[0].as_str();
    if file.is_empty() { None } else { Some(file) }
}

fn read_pick(words: &[String]) -> Option<Request<'_>>
    ensures request { option_map request_data result ≡ pick_of_words (map string_bytes words.entry.now) }
    ensures range { IfSome result IsInRange }
{
    if words.len() != 3 {
        return None;
    }
    read_three(&words[0], &words[1], &words[2])
}

fn read_three<'a>(file: &'a str, slot: &str, out: &'a str) -> Option<Request<'a>>
    ensures request { option_map request_data result ≡ pick_of file.entry.now slot.now out.entry.now }
    ensures range { IfSome result IsInRange }
{
    if out.is_empty() || !may_read(out, file) {
        return None;
    }
    match parse_number(slot.as_bytes(), 0, 31) {
        Some(slot) => Some(Request::Pick {
            file,
            slot: slot as u8,
            out,
        }),
        None => None,
    }
}

fn read_pack(words: &[String]) -> Option<Request<'_>>
    ensures request { option_map request_data result ≡ pack_of_words (map string_bytes words.entry.now) }
    ensures range { IfSome result IsInRange }
{
    if words.is_empty() {
        return None;
    }
    read_out(&words[0], &words[1..])
}

fn read_out<'a>(out: &'a str, files: &'a [String]) -> Option<Request<'a>>
    ensures request { option_map request_data result ≡ pack_of_words (out.entry.now ∷ map string_bytes files.entry.now) }
    ensures range { IfSome result IsInRange }
{
    if out.is_empty() || files.is_empty() || files.len() > 32 || !may_read_all(out, files) {
        return None;
    }
    Some(Request::Pack { out, files })
}

fn may_read_all(out: &str, files: &[String]) -> bool
    ensures { result ≡ spec.may_read_all out.now (map string_bytes files.now) }
{
    for file in files {
        if !may_read(out, file) {
            return false;
        }
    }
    true
}

fn may_read(out: &str, file: &str) -> bool
    ensures { result ≡ spec.may_read out.now file.now }
{
    !file.is_empty() && file != out
}

fn read_replay(words: &[String]) -> Option<Request<'_>>
    ensures request { option_map request_data result ≡ replay_of_words (map string_bytes words.entry.now) }
    ensures range { IfSome result IsInRange }
{
    if words.len() != 2 {
        return None;
    }
    let order = words[0].as_str();
    let out = words[1].as_str();
    if out.is_empty() || !may_read(out, order) {
        return None;
    }
    Some(Request::Replay { order, out })
}

fn read_verify(words: &[String]) -> Option<Request<'_>>
    ensures request { option_map request_data result ≡ verify_of_words (map string_bytes words.entry.now) }
    ensures range { IfSome result IsInRange }
{
    if words.len() != 2 {
        return None;
    }
    let order = words[0].as_str();
    let sound = words[1].as_str();
    if order.is_empty() || sound.is_empty() {
        return None;
    }
    Some(Request::Verify { order, sound })
}

fn read_gen(words: &[String]) -> Option<Request<'_>>
    ensures request { option_map request_data result ≡ gen_of_words (map string_bytes words.entry.now) }
    ensures range { IfSome result IsInRange }
{
    if words.len() != 3 {
        return None;
    }
    let seed = seed_of(words[0].as_bytes());
    let scripts = parse_number(words[1].as_bytes(), 1, 256);
    let commands = parse_number(words[2].as_bytes(), 0, 100_000);
    gen_request(seed, scripts, commands)
}

fn gen_request<'a>(
    seed: Option<u64>,
    scripts: Option<u32>,
    commands: Option<u32>,
) -> Option<Request<'a>>
    requires scripts { IfSome scripts (λ n. n ≤ 256) }
    requires commands { IfSome commands (λ n. n ≤ 100000) }
    ensures request { option_map request_data result ≡ gen_of seed scripts commands }
    ensures range { IfSome result IsInRange }
{
    let seed = seed?;
    let scripts = scripts?;
    let commands = commands?;
    if scripts * commands > 1_000_000 {
        return None;
    }
    Some(Request::Gen {
        seed,
        scripts,
        commands,
    })
}

fn read_bench(words: &[String]) -> Option<Request<'_>>
    ensures request { option_map request_data result ≡ bench_of_words (map string_bytes words.entry.now) }
    ensures range { IfSome result IsInRange }
{
    if words.len() != 2 {
        return None;
    }
    let seed = seed_of(words[0].as_bytes());
    let blocks = parse_number(words[1].as_bytes(), 1, 100_000);
    bench_request(seed, blocks)
}

fn bench_request<'a>(seed: Option<u64>, blocks: Option<u32>) -> Option<Request<'a>>
    requires { IfSome blocks (λ n. n ≤ 100000) }
    ensures request { option_map request_data result ≡ bench_of seed blocks }
    ensures range { IfSome result IsInRange }
{
    let seed = seed?;
    let blocks = blocks?;
    Some(Request::Bench { seed, blocks })
}
