//! What is asked of a source, and the words that ask it.

ghost use Rattle.std.specs.Prelude.{◌≡◌, IfOk, IfSome, IfNone, OnErr, map, option_map, string_bytes, Some};
ghost use Rattle.ipdl_top.specs.Requests.{Request as Asked, AreOfNoForm, AskFor, is_tape, order_in, request_in, request_named, run_request};
ghost use Rattle.ipdl_top.specs.Told.{request_of};

use ipdl_base::{Name, NameFault, NoMemory};
use itoa::Buffer;
use std::alloc::Global;

// What is asked of a source.
#[derive(Drop)]
pub(crate) enum Request<'a> {
    // To check its theorems.
    Check,
    // To say what its items have.
    Types,
    // To run the closed protocol of the name on the tape, which has a digit for each bit. The order
    // is that of its events.
    Run {
        name: Name,
        tape: &'a str,
        order: u64,
    },
}

// The request of one word: `check` or `types`.
fn request_named<'a>(word: &str) -> Option<Request<'a>>
    ensures { option_map request_of result ≡ request_named word.now }
{
    if word == "check" {
        Some(Request::Check)
    } else if word == "types" {
        Some(Request::Types)
    } else {
        None
    }
}

// Whether the word has the two digits of bits alone.
fn is_tape(word: &str) -> bool
    ensures { result ≡ is_tape word.now }
{
    word.as_bytes().iter().all(|c| *c == b'0' || *c == b'1')
}

// The number of 64 bits that the word writes in decimal digits, without a zero in front.
fn order_in(word: &str) -> Option<u64>
    ensures { result ≡ order_in word.now }
{
    let Ok(number) = word.parse::<u64>() else {
        return None;
    };
    let mut digits = Buffer::new();
    if digits.format(number) == word {
        Some(number)
    } else {
        None
    }
}

// The request to run what the three words say. Memory is wanted for a name alone.
fn run_request<'a>(
    alloc: Global,
    name: &str,
    tape: &'a str,
    order: &str,
) -> Result<Option<Request<'a>>, NoMemory>
    ensures found { IfOk result (λ found. option_map request_of found ≡ run_request name.now tape.now order.now) }
    ensures memory { OnErr result ((request : Asked) × (run_request name.now tape.now order.now ≡ Some request)) }
{
    if !is_tape(tape) {
        return Ok(None);
    }
    let Some(order) = order_in(order) else {
        return Ok(None);
    };
    match Name::read(alloc, name) {
        Ok(name) => Ok(Some(Request::Run { name, tape, order })),
        Err(NameFault::Bad) => Ok(None),
        Err(NameFault::Memory) => Err(NoMemory),
    }
}

// The request whose words these are, found by the first one.
fn found_request(alloc: Global, words: &[String]) -> Result<Option<Request<'_>>, NoMemory>
    ensures found { IfOk result (λ found. option_map request_of found ≡ request_in (map string_bytes words.now)) }
    ensures memory { OnErr result ((request : Asked) × (request_in (map string_bytes words.now) ≡ Some request)) }
{
    match words {
        [word] => Ok(request_named(word.as_str())),
        [word, name, tape, order] => {
            if word.as_str() != "run" {
                return Ok(None);
            }
            run_request(alloc, name.as_str(), tape.as_str(), order.as_str())
        }
        _ => Ok(None),
    }
}

// The request whose words these are. Memory is wanted only at words of a request.
pub(crate) fn request_in(alloc: Global, words: &[String]) -> Result<Option<Request<'_>>, NoMemory>
    ensures form { IfOk result (λ found. IfSome found (λ request. AskFor (map string_bytes words.now) (request_of request))) }
    ensures none { IfOk result (λ found. IfNone found (AreOfNoForm (map string_bytes words.now))) }
    ensures memory { OnErr result ((request : Asked) × AskFor (map string_bytes words.now) request) }
{
    found_request(alloc, words)
}
