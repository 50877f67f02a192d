//! Counts of a term: nodes, assignments, depth in print and random bits.

ghost use Rattle.std.specs.Prelude.{◌≡◌, ◌+◌, max};
ghost use Rattle.ipdl_term.specs.Views.{expression_of, reaction_of, protocol_of, term_of};
ghost use Rattle.ipdl_term.specs.Sizes.{saturated, expression_nodes, reaction_nodes, protocol_nodes, term_nodes, channel_count, expression_depth, reaction_depth, depth_in, printed_depth};
ghost use Rattle.ipdl_term.specs.Reactions.{reaction_coins};
ghost use Rattle.ipdl_term.specs.Protocols.{coins};
ghost use Rattle.ipdl_term.specs.Spines.{spine_of};

use crate::expression::Expr;
use crate::part::Part;
use crate::protocol::Proto;
use crate::reaction::React;

// ---- expressions and reactions

// How many nodes an expression or a reaction has, and how deep its parentheses nest in print. Each
// count stands at the last `u64` where it is larger.
#[derive(Clone, Copy)]
struct Size {
    nodes: u64,
    depth: u64,
}

impl Size {
    // The size of a node over what has this size.
    fn over(self) -> Size
        ensures nodes { result.nodes ≡ saturated (self.nodes + 1) }
        ensures depth { result.depth ≡ saturated (self.depth + 1) }
    {
        Size {
            nodes: self.nodes.saturating_add(1),
            depth: self.depth.saturating_add(1),
        }
    }

    // The size of two side by side.
    fn beside(self, other: Size) -> Size
        ensures nodes { result.nodes ≡ saturated (self.nodes + other.nodes) }
        ensures depth { result.depth ≡ max self.depth other.depth }
    {
        Size {
            nodes: self.nodes.saturating_add(other.nodes),
            depth: self.depth.max(other.depth),
        }
    }
}

fn expr_size(term: &Expr) -> Size
    ensures nodes { result.nodes ≡ saturated (expression_nodes (expression_of term.now)) }
    ensures depth { result.depth ≡ saturated (expression_depth (expression_of term.now)) }
{
    match term {
        Expr::Lit(_) | Expr::Var(_) | Expr::Outer(_) => Size { nodes: 1, depth: 0 },
        Expr::Apply(_, e) | Expr::Not(e) | Expr::Cut(_, _, e) => expr_size(e).over(),
        Expr::Xor(a, b) | Expr::And(a, b) | Expr::Cat(a, b) | Expr::Same(a, b) => {
            expr_size(a).beside(expr_size(b)).over()
        }
        Expr::Mux(c, a, b) => expr_size(c)
            .beside(expr_size(a).beside(expr_size(b)))
            .over(),
    }
}

fn react_size(term: &React) -> Size
    ensures nodes { result.nodes ≡ saturated (reaction_nodes (reaction_of term.now)) }
    ensures depth { result.depth ≡ saturated (reaction_depth (reaction_of term.now)) }
{
    match term {
        React::Ret(e) => expr_size(e).over(),
        React::Flip(_) | React::Read(_) => Size { nodes: 1, depth: 1 },
        React::Cond(e, r, s) => expr_size(e)
            .beside(react_size(r).beside(react_size(s)))
            .over(),
        React::Bind(_, r, s) => react_size(r).beside(react_size(s)).over(),
    }
}

// ---- protocols

/// How large a protocol is. Each count stands at the last `u64` where it is larger.
#[derive(Clone, Copy, Debug, PartialEq, Eq)]
pub struct Extent {
    /// Its nodes, with those of its reactions and of their expressions.
    pub nodes: u64,
    /// Its assignments.
    pub channels: u64,
    /// How deep its parentheses nest in print.
    pub depth: u64,
}

// What a protocol stands in: a printed `par` goes on where its right part is another `par`, and a
// printed `new` where its body is another `new`.
#[derive(Clone, Copy)]
enum Within {
    Other,
    Par,
    New,
}

// How large a protocol is that stands in such a one.
fn measure_within(within: Within, proto: &Proto) -> Extent
    ensures nodes { result.nodes ≡ saturated (protocol_nodes (protocol_of proto.now)) }
    ensures channels { result.channels ≡ saturated (channel_count (protocol_of proto.now)) }
    ensures depth { result.depth ≡ saturated (depth_in (spine_of within) (protocol_of proto.now)) }
{
    match proto {
        Proto::Nil => Extent {
            nodes: 1,
            channels: 0,
            depth: 1,
        },
        Proto::Out(_, r) => {
            let size = react_size(r).over();
            Extent {
                nodes: size.nodes,
                channels: 1,
                depth: size.depth,
            }
        }
        Proto::Par(p, q) => {
            let left = measure_within(Within::Other, p);
            let right = measure_within(Within::Par, q);
            Extent {
                nodes: left.nodes.saturating_add(right.nodes).saturating_add(1),
                channels: left.channels.saturating_add(right.channels),
                depth: match within {
                    Within::Par => left.depth.max(right.depth),
                    Within::Other | Within::New => left.depth.max(right.depth).saturating_add(1),
                },
            }
        }
        Proto::Hide(_, _, p) => {
            let body = measure_within(Within::New, p);
            Extent {
                nodes: body.nodes.saturating_add(1),
                channels: body.channels,
                depth: match within {
                    Within::New => body.depth,
                    Within::Other | Within::Par => body.depth.max(2).saturating_add(1),
                },
            }
        }
    }
}

/// The nodes of the protocol, its assignments and its depth in print, counted in one walk.
pub fn measure(proto: &Proto) -> Extent
    ensures nodes { result.nodes ≡ saturated (protocol_nodes (protocol_of proto.now)) }
    ensures channels { result.channels ≡ saturated (channel_count (protocol_of proto.now)) }
    ensures depth { result.depth ≡ saturated (printed_depth (protocol_of proto.now)) }
{
    measure_within(Within::Other, proto)
}

// ---- each count alone

/// How many nodes the expression has. The count stands at the last `u64` where it is larger.
pub fn expr_nodes(term: &Expr) -> u64
    ensures { result ≡ saturated (expression_nodes (expression_of term.now)) }
{
    expr_size(term).nodes
}

/// How many nodes the reaction has, with those of its expressions. The count stands at the last
/// `u64` where it is larger.
pub fn react_nodes(term: &React) -> u64
    ensures { result ≡ saturated (reaction_nodes (reaction_of term.now)) }
{
    react_size(term).nodes
}

/// How many nodes the protocol has, with those of its reactions and of their expressions. The count
/// stands at the last `u64` where it is larger.
pub fn proto_nodes(proto: &Proto) -> u64
    ensures { result ≡ saturated (protocol_nodes (protocol_of proto.now)) }
{
    measure(proto).nodes
}

/// How many protocol, reaction and expression nodes the term has. The count stands at the last
/// `u64` where it is larger.
pub fn nodes(part: &Part) -> u64
    ensures { result ≡ saturated (term_nodes (term_of part.now)) }
{
    match part {
        Part::P(p) => proto_nodes(p),
        Part::R(r) => react_nodes(r),
        Part::E(e) => expr_nodes(e),
    }
}

/// How many assignments the protocol has, which is how many channels it writes, the hidden ones
/// among them. The count stands at the last `u64` where it is larger.
pub fn channels(proto: &Proto) -> u64
    ensures { result ≡ saturated (channel_count (protocol_of proto.now)) }
{
    measure(proto).channels
}

/// How deep the parentheses nest where the protocol is printed. Each `par` and each `new` is
/// gathered along its right spine, and the ports of a `new` stand in two parentheses of their
/// own. The count stands at the last `u64` where it is larger.
pub fn depth(proto: &Proto) -> u64
    ensures { result ≡ saturated (printed_depth (protocol_of proto.now)) }
{
    measure(proto).depth
}

// ---- random bits

// The most bits that a reaction draws.
fn react_coins(term: &React) -> u64
    ensures { result ≡ saturated (reaction_coins (reaction_of term.now)) }
{
    match term {
        React::Ret(_) | React::Read(_) => 0,
        React::Flip(w) => u64::from(*w),
        React::Cond(_, r, s) => react_coins(r).max(react_coins(s)),
        React::Bind(_, r, s) => react_coins(r).saturating_add(react_coins(s)),
    }
}

/// How many random bits the protocol's assignments draw at most, all together. The count stands
/// at the last `u64` where it is larger.
pub fn coins(proto: &Proto) -> u64
    ensures { result ≡ saturated (coins (protocol_of proto.now)) }
{
    match proto {
        Proto::Nil => 0,
        Proto::Out(_, r) => react_coins(r),
        Proto::Par(p, q) => coins(p).saturating_add(coins(q)),
        Proto::Hide(_, _, p) => coins(p),
    }
}
