//! When lines are told as objects.
ghost use Rattle.std.specs.Prelude.{◌≡◌, map};
ghost use Rattle.std.specs.String.{string_bytes};
ghost use Rattle.line_objects.specs.Asked.{asks_objects, form_named, form_of};

use crate::Form;

/// The form in which these words of a command line ask for objects, where they do.
#[tactic(auto, unfolding(crate::specs::Asked::form_of))]
pub fn form_of(words: &[String]) -> Option<Form>
    ensures { result ≡ form_of (map string_bytes words.now) }
{
    match words {
        [_, name, rest @ ..] if asks_objects(rest) => form_named(name.as_str()),
        _ => None,
    }
}

/// The form of the lines of a subcommand, where they can be objects.
#[tactic(auto, unfolding(crate::specs::Asked::form_named))]
fn form_named(name: &str) -> Option<Form>
    ensures { result ≡ form_named name.now }
{
    match name {
        "replay" | "trace" => Some(Form::Run),
        "decode" => Some(Form::Decode),
        "audit" => Some(Form::Audit),
        "info" => Some(Form::Info),
        _ => None,
    }
}

/// Whether `--json` stands among the words of a subcommand.
#[tactic(auto, unfolding(crate::specs::Asked::asks_objects))]
fn asks_objects(words: &[String]) -> bool
    ensures { result ≡ asks_objects (map string_bytes words.now) }
{
    match words.split_first() {
        Some((word, rest)) => {
            word.as_str() != "--" && (word.as_str() == "--json" || asks_objects(rest))
        }
        None => false,
    }
}
