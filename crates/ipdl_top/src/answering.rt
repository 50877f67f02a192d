//! What is answered to a request and the bytes of a source: a text, or the line of a refusal.

ghost use Rattle.std.specs.Prelude.{◌≡◌, ◌≤◌, IfOk, IfErr, length};
ghost use Rattle.ipdl_tree.specs.Trees.{Located};
ghost use Rattle.ipdl_forms.specs.Documents.{document_of};
ghost use Rattle.ipdl_forms.specs.Items.{SpellsDocument};
ghost use Rattle.ipdl_forms.specs.Limits.{IsWithinLimits};
ghost use Rattle.ipdl_top.specs.Checking.{IsCheckRefusal, IsCheckAnswer};
ghost use Rattle.ipdl_top.specs.Replies.{IsRequestRefusal, IsRefusedDocument, IsAnswer, IsReplyTo};
ghost use Rattle.ipdl_top.specs.Requests.{tape_of};
ghost use Rattle.ipdl_top.specs.Running.{IsRunRefusal, IsRunAnswer};
ghost use Rattle.ipdl_top.specs.Statuses.{refused, accepted};
ghost use Rattle.ipdl_top.specs.Summaries.{summary_text};
ghost use Rattle.ipdl_top.specs.Told.{request_of, told, answered, Settles};
ghost use Rattle.ipdl_top.specs.Transfers.{source_limit};
ghost use Rattle.ipdl_top.specs.Typed.{IsTypedDocument};

use crate::refusal::{Refusal, Stop, document_stop, tree_stop};
use crate::refusing::refusal_text;
use crate::request::Request;
use crate::scripts::proved_text;
use crate::status::Status;
use crate::summaries::summary_text;
use crate::typing::test_items;
use ipdl_base::{Name, NoMemory};
use ipdl_commands::{CommandFault, run_text};
use ipdl_forms::Document;
use ipdl_read::read_document;
use ipdl_tree::read_tree;
use std::alloc::Global;

// The answer to `check`, of a document whose items are well typed.
fn answer_to_check(alloc: Global, document: &Document) -> Result<Vec<u8>, Stop>
    requires spelled { (t : Located) × SpellsDocument (document_of document.now) t }
    requires within { IsWithinLimits (document_of document.now) }
    requires typed { IsTypedDocument (document_of document.now) }
    ensures { Settles result (IsCheckRefusal (document_of document.now)) (IsCheckAnswer (document_of document.now)) }
{
    proved_text(alloc, document)
}

// The answer to `types`, of a document whose items are well typed.
fn answer_to_types(alloc: Global, document: &Document) -> Result<Vec<u8>, Stop>
    requires within { IsWithinLimits (document_of document.now) }
    requires typed { IsTypedDocument (document_of document.now) }
    ensures text { IfOk result (λ text. text.items ≡ summary_text (document_of document.now)) }
    ensures memory { IfErr result (λ stop. stop ≡ Stop.Memory) }
{
    match summary_text(alloc, document) {
        Ok(text) => Ok(text),
        Err(NoMemory) => Err(Stop::Memory),
    }
}

// The bits that a word of digits writes.
fn tape_bits(alloc: Global, word: &str) -> Result<Vec<bool>, NoMemory>
    ensures { IfOk result (λ bits. bits.items ≡ tape_of word.now) }
{
    let mut bits = Vec::new(alloc);
    for c in word.as_bytes() {
        bits.push(*c == b'1')?;
    }
    Ok(bits)
}

// The answer to `run`, of a document whose items are well typed.
fn answer_to_run(
    alloc: Global,
    document: &Document,
    name: &Name,
    tape: &str,
) -> Result<Vec<u8>, Stop>
    requires spelled { (t : Located) × SpellsDocument (document_of document.now) t }
    requires within { IsWithinLimits (document_of document.now) }
    requires typed { IsTypedDocument (document_of document.now) }
    ensures { Settles result (IsRunRefusal name.now (tape_of tape.now) (document_of document.now)) (IsRunAnswer name.now (tape_of tape.now) (document_of document.now)) }
{
    let tape = tape_bits(alloc, tape)?;
    match run_text(alloc, document, name.text(), tape.as_slice()) {
        Ok(text) => Ok(text),
        Err(CommandFault::Refused(line)) => Err(Stop::Refused(Refusal::Item(line))),
        Err(CommandFault::Memory) => Err(Stop::Memory),
    }
}

// The answer to a document whose items are well typed.
fn answer_to_typed(
    alloc: Global,
    request: &Request<'_>,
    document: &Document,
) -> Result<Vec<u8>, Stop>
    requires spelled { (t : Located) × SpellsDocument (document_of document.now) t }
    requires within { IsWithinLimits (document_of document.now) }
    requires typed { IsTypedDocument (document_of document.now) }
    ensures { Settles result (IsRequestRefusal (request_of request.now) (document_of document.now)) (IsAnswer (request_of request.now) (document_of document.now)) }
{
    match request {
        Request::Check => answer_to_check(alloc, document),
        Request::Types => answer_to_types(alloc, document),
        Request::Run { name, tape, .. } => answer_to_run(alloc, document, name, tape),
    }
}

// The answer to a document.
fn answer_to_document(
    alloc: Global,
    request: &Request<'_>,
    document: &Document,
) -> Result<Vec<u8>, Stop>
    requires spelled { (t : Located) × SpellsDocument (document_of document.now) t }
    requires within { IsWithinLimits (document_of document.now) }
    ensures { Settles result (IsRefusedDocument (request_of request.now) (document_of document.now)) (IsAnswer (request_of request.now) (document_of document.now)) }
{
    match test_items(alloc, document) {
        Ok(()) => answer_to_typed(alloc, request, document),
        Err(stop) => Err(stop),
    }
}

// The answer to all bytes of a source, which are within the limit.
fn answer_to(alloc: Global, request: &Request<'_>, bytes: &[u8]) -> Result<Vec<u8>, Stop>
    requires { length bytes.now ≤ source_limit }
    ensures { Settles result (λ r. IsReplyTo (request_of request.now) bytes.now (refused r)) (λ text. IsReplyTo (request_of request.now) bytes.now (accepted text)) }
{
    let tree = match read_tree(alloc, bytes) {
        Ok(tree) => tree,
        Err(fault) => return Err(tree_stop(fault)),
    };
    match read_document(alloc, &tree) {
        Ok(document) => answer_to_document(alloc, request, &document),
        Err(fault) => Err(document_stop(fault)),
    }
}

// A status, and the text that is to be written with it.
#[derive(Drop)]
pub(crate) struct Answer {
    pub(crate) status: Status,
    pub(crate) text: Vec<u8>,
}

// The answer that says why something is refused.
fn refusing_answer(alloc: Global, refusal: &Refusal) -> Result<Answer, NoMemory>
    ensures { IfOk result (λ answer. answered answer ≡ refused (told refusal.now)) }
{
    let text = refusal_text(alloc, refusal)?;
    Ok(Answer {
        status: refusal.status(),
        text,
    })
}

// The reply to all bytes of a source, which are within the limit: the text, or the line that says
// why there is none.
pub(crate) fn reply_to(
    alloc: Global,
    request: &Request<'_>,
    bytes: &[u8],
) -> Result<Answer, NoMemory>
    requires { length bytes.now ≤ source_limit }
    ensures { IfOk result (λ answer. IsReplyTo (request_of request.now) bytes.now (answered answer)) }
{
    match answer_to(alloc, request, bytes) {
        Ok(text) => Ok(Answer {
            status: Status::Accepted,
            text,
        }),
        Err(Stop::Refused(refusal)) => refusing_answer(alloc, &refusal),
        Err(Stop::Memory) => Err(NoMemory),
    }
}
