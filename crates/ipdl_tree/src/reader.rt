//! The reader: the tree that has been read of a text so far, one character after the other.
ghost use Rattle.std.specs.Prelude.{◌≡◌, ℕ, ◌<◌, ◌≤◌, ◌^◌, ◌++◌, [], List, length, OnOk};
ghost use Rattle.std.specs.Char.{encode_utf8};
ghost use Rattle.ipdl_tree.specs.Faults.{Gives};
ghost use Rattle.ipdl_tree.specs.Characters.{beginning_of};
ghost use Rattle.ipdl_tree.specs.Reading.{nothing_read, add_to, fills_gap, ended, after_beginning, after_in_token, refusal_of_beginning, refusal_of_any_beginning, refusal_in_token, refusal_of, unless, step, finish, whole};
ghost use Rattle.ipdl_tree.specs.Openings.{groups_of};
ghost use Rattle.ipdl_tree.specs.ReaderViews.{reading, IsTokenAfter};
ghost use Rattle.ipdl_tree.specs.Views.{located};

use crate::character::{Beginning, beginning_of, ends_token};
use crate::fault::{SpellCause, TreeFault};
use crate::groups::OpenGroups;
use crate::token::{OpenToken, continues, extended, no_bits, tree_of};
use crate::tree::{Node, Tree};
use ipdl_base::{Limit, NoMemory, Pos};
use std::alloc::Global;

// What was read of a tree so far.
#[derive(Drop)]
pub(crate) struct Reader {
    token: OpenToken,
    groups: OpenGroups,
    complete: Option<Tree>,
}

// A fault of the spelling at an offset.
pub(crate) fn spell(at: u32, cause: SpellCause) -> TreeFault
    ensures { result ≡ TreeFault.Spell (record { 0 = at }) cause }
{
    TreeFault::Spell {
        pos: Pos(at),
        cause,
    }
}

// Whether a blank or a comment begins.
fn fills_gap(beginning: Beginning) -> bool
    ensures { result ≡ fills_gap beginning }
{
    match beginning {
        Beginning::Blank | Beginning::Comment => true,
        _ => false,
    }
}

impl Reader {
    // A reader that has read nothing.
    pub(crate) fn new(alloc: Global) -> Reader
        ensures token { result.token ≡ OpenToken.Nothing }
        ensures nothing { reading [] result ≡ nothing_read }
    {
        Reader {
            token: OpenToken::Nothing,
            groups: OpenGroups::empty(alloc),
            complete: None,
        }
    }

    // A tree is complete: the next one of the innermost group, or else the whole.
    fn add(&mut self, tree: Tree) -> Result<(), NoMemory>
        ensures token { OnOk result (self.new.token ≡ OpenToken.Nothing) }
        ensures added { (front : List ℕ) → OnOk result
            (reading front self.new ≡ add_to (located tree) (groups_of self.old.groups) (reading front self.old).complete) }
    {
        self.token = OpenToken::Nothing;
        if self.groups.count() == 0 {
            self.complete = Some(tree);
        } else {
            self.groups.add(tree)?;
        }
        Ok(())
    }

    // An opening parenthesis.
    fn open(&mut self, at: u32, c: char) -> Result<(), TreeFault>
        requires { self.old.token ≡ OpenToken.Nothing }
        ensures { (front next : List ℕ) → Gives (λ _. reading next self.new) result
            (unless (refusal_of_beginning (reading front self.old) Beginning.Opening) at (after_beginning (reading front self.old) at c Beginning.Opening)) }
    {
        if self.groups.count() as u64 >= Limit::Depth.number() {
            return Err(TreeFault::Deep { pos: Pos(at) });
        }
        self.groups.open(Pos(at))?;
        Ok(())
    }

    // A closing parenthesis.
    fn close(&mut self, at: u32, c: char) -> Result<(), TreeFault>
        ensures { (front next : List ℕ) → Gives (λ _. reading next self.new) result
            (unless (refusal_of_beginning (reading front self.old) Beginning.Closing) at (after_beginning (reading front self.old) at c Beginning.Closing)) }
    {
        match self.groups.close()? {
            None => Err(spell(at, SpellCause::BadByte)),
            Some((pos, parts)) => {
                self.add(Tree {
                    pos,
                    node: Node::Group(parts),
                })?;
                Ok(())
            }
        }
    }

    // A character where no token is open. The text before it is `front`.
    fn begin(&mut self, front: &str, c: char, beginning: Beginning) -> Result<(), TreeFault>
        requires small { length front.now < 2 ^ 32 }
        requires between { self.old.token ≡ OpenToken.Nothing }
        requires digit { beginning ≡ Beginning.Number → (48 ≤ c) × (c ≤ 57) }
        ensures step { Gives (λ _. reading (front.now ++ encode_utf8 c) self.new) result
            (unless (refusal_of_any_beginning (reading front.now self.old) beginning) (length front.now) (after_beginning (reading front.now self.old) (length front.now) c beginning)) }
    {
        let at = front.len() as u32;
        if !fills_gap(beginning) && self.complete.is_some() {
            return Err(spell(at, SpellCause::Extra));
        }
        match beginning {
            Beginning::Blank => Ok(()),
            Beginning::Comment => {
                self.token = OpenToken::Comment;
                Ok(())
            }
            Beginning::Opening => self.open(at, c),
            Beginning::Closing => self.close(at, c),
            Beginning::Number => {
                self.token = OpenToken::Number {
                    start: at,
                    value: c as u32 - '0' as u32,
                };
                Ok(())
            }
            Beginning::Literal => {
                self.token = OpenToken::Literal {
                    start: at,
                    bits: no_bits(),
                };
                Ok(())
            }
            Beginning::Word => {
                self.token = OpenToken::Name { start: at };
                Ok(())
            }
            Beginning::Nothing => Err(spell(at, SpellCause::BadByte)),
        }
    }

    // The open token ends after `front`.
    fn end_token(&mut self, alloc: Global, front: &str) -> Result<(), NoMemory>
        requires { IsTokenAfter front.now self.old.token }
        ensures token { OnOk result (self.new.token ≡ OpenToken.Nothing) }
        ensures ended { (next : List ℕ) → OnOk result (reading next self.new ≡ ended (reading front.now self.old)) }
    {
        match tree_of(alloc, front, self.token)? {
            None => {
                self.token = OpenToken::Nothing;
                Ok(())
            }
            Some(tree) => self.add(tree),
        }
    }

    // The open token ends after `front`, and the character follows it.
    fn end_and_begin(&mut self, alloc: Global, front: &str, c: char) -> Result<(), TreeFault>
        requires small { length front.now < 2 ^ 32 }
        requires token { IsTokenAfter front.now self.old.token }
        ensures step { Gives (λ _. reading (front.now ++ encode_utf8 c) self.new) result
            (unless (refusal_of_any_beginning (ended (reading front.now self.old)) (beginning_of c)) (length front.now)
            (after_beginning (ended (reading front.now self.old)) (length front.now) c (beginning_of c))) }
    {
        self.end_token(alloc, front)?;
        self.begin(front, c, beginning_of(c))
    }

    // A character after `front`, where a token is open.
    fn go_on(&mut self, alloc: Global, front: &str, c: char) -> Result<(), TreeFault>
        requires small { length front.now < 2 ^ 32 }
        requires token { IsTokenAfter front.now self.old.token }
        ensures step { Gives (λ _. reading (front.now ++ encode_utf8 c) self.new) result
            (unless (refusal_in_token (reading front.now self.old) c) (length front.now) (after_in_token (reading front.now self.old) (length front.now) c)) }
    {
        let at = front.len() as u32;
        if continues(self.token, c) {
            match extended(self.token, front, c) {
                Ok(token) => {
                    self.token = token;
                    Ok(())
                }
                Err(cause) => Err(spell(at, cause)),
            }
        } else if ends_token(c) {
            self.end_and_begin(alloc, front, c)
        } else {
            Err(spell(at, SpellCause::BadByte))
        }
    }

    // Reads the character that follows the text.
    pub(crate) fn take(&mut self, alloc: Global, front: &str, c: char) -> Result<(), TreeFault>
        requires small { length front.now < 2 ^ 32 }
        requires token { IsTokenAfter front.now self.old.token }
        ensures step { Gives (λ _. reading (front.now ++ encode_utf8 c) self.new) result (step refusal_of (reading front.now self.old) (length front.now) c) }
    {
        match self.token {
            OpenToken::Nothing => self.begin(front, c, beginning_of(c)),
            OpenToken::Comment => {
                if c == '\n' {
                    self.token = OpenToken::Nothing;
                }
                Ok(())
            }
            _ => self.go_on(alloc, front, c),
        }
    }

    // The whole tree, where the source ends at the offset and no token is open.
    fn into_tree(self, at: u32) -> Result<Tree, TreeFault>
        ensures { (front : List ℕ) → Gives located result (whole (reading front self).groups (reading front self).complete at) }
    {
        let Reader {
            token: _,
            groups,
            complete,
        } = self;
        if groups.count() != 0 {
            return Err(spell(at, SpellCause::Unclosed));
        }
        match complete {
            None => Err(spell(at, SpellCause::NoText)),
            Some(tree) => Ok(tree),
        }
    }

    // The whole tree, where the source ends after the text.
    pub(crate) fn finish(mut self, alloc: Global, text: &str) -> Result<Tree, TreeFault>
        requires small { length text.now < 2 ^ 32 }
        requires token { IsTokenAfter text.now self.token }
        ensures { Gives located result (finish (reading text.now self) (length text.now)) }
    {
        self.end_token(alloc, text)?;
        self.into_tree(text.len() as u32)
    }
}
