// Commands from their words.
ghost use Rattle.std.specs.Prelude.{◌≡◌, ◌≤◌, ◌≢◌, List, [], ◌∷◌, length, map, codes, IsTrue, MatchOption};
ghost use Rattle.std.specs.String.{string_bytes};
ghost use Rattle.std.specs.List.{list_all};
ghost use Rattle.tce_command.specs.Command.{is_file_byte, is_file_word, IsCommand, IsNoCommand, NamesSpec};
ghost use Rattle.tce_command.specs.CommandCode.{command_of, ReadsBetween, ReadsCommand, ReadsForm};

use crate::command::Command;
use crate::number::read_number;
use tce_array::Form;
use tce_space::{MAX_MEMORY, is_name};

// The largest number that a demonstration comes from, and its largest extent.
const MAX_SEED: u64 = 2_147_483_646;

const MAX_EXTENT: u64 = 32;

/// Reads the words of a command. `None` exactly where they are those of no command.
pub fn read_command(words: &[String]) -> Option<Command<'_>>
    ensures { MatchOption result (IsNoCommand (map string_bytes words.now))
        (λ command. IsCommand (map string_bytes words.now) (command_of command)) }
{
    match words {
        [verb, spec] => read_plan(verb.as_str(), spec.as_str()),
        [verb, spec, last] => read_with_one(verb.as_str(), spec.as_str(), last.as_str()),
        [verb, first, second, last] => {
            read_with_three(
                verb.as_str(),
                first.as_str(),
                second.as_str(),
                last.as_str(),
            )
        }
        _ => None,
    }
}

fn read_plan<'a>(verb: &str, spec: &'a str) -> Option<Command<'a>>
    ensures { ReadsCommand (verb.now ∷ spec.now ∷ []) result }
{
    match verb {
        "plan" if may_name_file(".tce", spec) => Some(Command::Plan { spec }),
        _ => None,
    }
}

fn read_with_one<'a>(verb: &str, spec: &'a str, last: &'a str) -> Option<Command<'a>>
    ensures { ReadsCommand (verb.now ∷ spec.now ∷ last.now ∷ []) result }
{
    if !may_name_file(".tce", spec) {
        return None;
    }
    match verb {
        "run" => read_run(spec, last),
        "batch" => read_batch(spec, last),
        "expand" => read_expand(spec, last),
        _ => read_with_certificate(verb, spec, last),
    }
}

fn read_run<'a>(spec: &'a str, budget: &str) -> Option<Command<'a>>
    requires { NamesSpec spec.now }
    ensures { ReadsCommand (codes "run" ∷ spec.now ∷ budget.now ∷ []) result }
{
    let Some(budget) = read_between(budget, 0, MAX_MEMORY) else {
        return None;
    };
    Some(Command::Run { spec, budget })
}

fn read_batch<'a>(spec: &'a str, budget: &str) -> Option<Command<'a>>
    requires { NamesSpec spec.now }
    ensures { ReadsCommand (codes "batch" ∷ spec.now ∷ budget.now ∷ []) result }
{
    let Some(budget) = read_between(budget, 0, MAX_MEMORY) else {
        return None;
    };
    Some(Command::Batch { spec, budget })
}

fn read_with_certificate<'a>(verb: &str, spec: &'a str, cert: &'a str) -> Option<Command<'a>>
    requires spec { NamesSpec spec.now }
    requires run { verb.now ≢ codes "run" }
    requires batch { verb.now ≢ codes "batch" }
    requires expand { verb.now ≢ codes "expand" }
    ensures { ReadsCommand (verb.now ∷ spec.now ∷ cert.now ∷ []) result }
{
    if !may_name_file(".cert", cert) {
        return None;
    }
    match verb {
        "cert" => Some(Command::Cert { spec, cert }),
        "check" => Some(Command::Check { spec, cert }),
        _ => None,
    }
}

fn read_expand<'a>(spec: &'a str, tensor: &'a str) -> Option<Command<'a>>
    requires { NamesSpec spec.now }
    ensures { ReadsCommand (codes "expand" ∷ spec.now ∷ tensor.now ∷ []) result }
{
    if !is_name(tensor.as_bytes()) {
        return None;
    }
    Some(Command::Expand { spec, tensor })
}

// A number from the least to the most.
fn read_between(digits: &str, least: u64, most: u64) -> Option<u64>
    ensures { ReadsBetween least most digits.now result }
{
    let number = read_number(digits.as_bytes())?;
    if number < least || number > most {
        return None;
    }
    Some(number)
}

fn read_with_three<'a>(
    verb: &str,
    first: &'a str,
    second: &'a str,
    last: &'a str,
) -> Option<Command<'a>>
    ensures { ReadsCommand (verb.now ∷ first.now ∷ second.now ∷ last.now ∷ []) result }
{
    match verb {
        "demo" => read_demo(first, second, last),
        "einsum" => read_einsum(first, second, last),
        "spill" => read_spill(first, second, last),
        "convert" => read_convert(first, second, last),
        _ => read_with_flat(verb, first, second, last),
    }
}

fn read_demo<'a>(seed: &str, v: &str, o: &str) -> Option<Command<'a>>
    ensures { ReadsCommand (codes "demo" ∷ seed.now ∷ v.now ∷ o.now ∷ []) result }
{
    let Some(seed) = read_between(seed, 1, MAX_SEED) else {
        return None;
    };
    let Some(v) = read_between(v, 1, MAX_EXTENT) else {
        return None;
    };
    let Some(o) = read_between(o, 1, MAX_EXTENT) else {
        return None;
    };
    Some(Command::Demo { seed, v, o })
}

fn read_einsum<'a>(text: &'a str, path: &'a str, spec: &'a str) -> Option<Command<'a>>
    ensures { ReadsCommand (codes "einsum" ∷ text.now ∷ path.now ∷ spec.now ∷ []) result }
{
    if !may_name_file(".tce", spec) {
        return None;
    }
    Some(Command::Einsum { text, path, spec })
}

fn read_spill<'a>(spec: &'a str, budget: &str, limit: &str) -> Option<Command<'a>>
    ensures { ReadsCommand (codes "spill" ∷ spec.now ∷ budget.now ∷ limit.now ∷ []) result }
{
    if !may_name_file(".tce", spec) {
        return None;
    }
    let Some(budget) = read_between(budget, 0, MAX_MEMORY) else {
        return None;
    };
    let Some(limit) = read_between(limit, 0, MAX_MEMORY) else {
        return None;
    };
    Some(Command::Spill {
        spec,
        budget,
        limit,
    })
}

fn read_convert<'a>(spec: &'a str, tensor: &'a str, form: &str) -> Option<Command<'a>>
    ensures { ReadsCommand (codes "convert" ∷ spec.now ∷ tensor.now ∷ form.now ∷ []) result }
{
    if !may_name_file(".tce", spec) || !is_name(tensor.as_bytes()) {
        return None;
    }
    let Some(form) = read_form(form) else {
        return None;
    };
    Some(Command::Convert { spec, tensor, form })
}

fn read_with_flat<'a>(
    verb: &str,
    spec: &'a str,
    tensor: &'a str,
    flat: &'a str,
) -> Option<Command<'a>>
    requires demo { verb.now ≢ codes "demo" }
    requires einsum { verb.now ≢ codes "einsum" }
    requires spill { verb.now ≢ codes "spill" }
    requires convert { verb.now ≢ codes "convert" }
    ensures { ReadsCommand (verb.now ∷ spec.now ∷ tensor.now ∷ flat.now ∷ []) result }
{
    if !may_name_file(".tce", spec) || !is_name(tensor.as_bytes()) {
        return None;
    }
    if !may_name_file(".flat", flat) {
        return None;
    }
    match verb {
        "pack" => Some(Command::Pack { spec, tensor, flat }),
        "unpack" => Some(Command::Unpack { spec, tensor, flat }),
        _ => None,
    }
}

// The form of the second version with this number of bytes for each element.
fn read_form(word: &str) -> Option<Form>
    ensures { ReadsForm word.now result }
{
    match word {
        "4" => Some(Form::Narrow),
        "8" => Some(Form::Wide),
        _ => None,
    }
}

fn may_stand(b: u8) -> bool
    ensures { result ≡ is_file_byte b }
{
    b.is_ascii_alphanumeric() || b == b'_' || b == b'-' || b == b'.' || b == b'/'
}

fn all_may_stand(bytes: &[u8]) -> bool
    ensures { result ≡ list_all is_file_byte bytes.now }
{
    bytes.iter().all(|b| may_stand(*b))
}

fn may_name_file(suffix: &str, word: &str) -> bool
    ensures value { result ≡ is_file_word suffix.now word.now }
    ensures short { IsTrue result → length word.now ≤ 200 }
{
    let bytes = word.as_bytes();
    if bytes.len() > 200 || bytes.len() <= suffix.len() {
        return false;
    }
    if !bytes.ends_with(suffix.as_bytes()) {
        return false;
    }
    all_may_stand(bytes)
}
