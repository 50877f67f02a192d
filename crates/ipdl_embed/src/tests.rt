//! Tests that each call answers where memory is there, which no contract can say.

use crate::{
    NoPort, Renaming, Visible, complete, embed, embed_ctx, first_captured_target, fits, follow,
    hidden_around_place,
};
use ipdl_base::{Bits, List, Name, Path};
use ipdl_term::{Ctx, Expr, Interface, Names, Port, Proto, React};
use std::alloc::Global;
use std::test::Fail;

// A port of one bit.
fn port(alloc: Global, name: &str) -> Result<Port, Fail> {
    Ok(Port {
        name: Name::read(alloc, name)?,
        width: 1,
    })
}

// The interface with this output alone.
fn writing(alloc: Global, output: &str) -> Result<Interface, Fail> {
    let mut outputs = List::empty(alloc);
    outputs.push(port(alloc, output)?)?;
    Ok(Interface {
        inputs: List::empty(alloc),
        outputs,
    })
}

// The pair of these names.
fn pair(alloc: Global, channel: &str, name: &str) -> Result<(Name, Name), Fail> {
    Ok((Name::read(alloc, channel)?, Name::read(alloc, name)?))
}

// The renaming of an interface with this output alone, to which the name is given.
fn renaming(alloc: Global, output: &str, name: &str) -> Result<Renaming, Fail> {
    let mut pairs = Vec::new(alloc);
    pairs.push(pair(alloc, output, name)?)?;
    let made = complete(alloc, &writing(alloc, output)?, pairs.as_slice());
    Ok(made.ok().ok_or("no renaming")?)
}

// The protocol that writes a bit to the channel.
fn assignment(alloc: Global, channel: &str) -> Result<Proto, Fail> {
    let bit = Bits::new(1, 0).ok_or("no bit")?;
    Ok(Proto::Out(Name::read(alloc, channel)?, React::Ret(Expr::Lit(bit))))
}

// Whether these names are the only pair.
fn is_pair(pairs: &[(Name, Name)], channel: &str, name: &str) -> bool {
    match pairs {
        [pair] => pair.0.text() == channel && pair.1.text() == name,
        _ => false,
    }
}

#[test]
fn completes_and_shares(rt: HostRuntime) -> Result<(), Fail> {
    let alloc = rt.alloc();
    let made = complete(alloc, &writing(alloc, "c")?, &[]);
    let shared = made.ok().ok_or("no renaming")?.shared_pairs(alloc)?;
    assert!(rt; is_pair(shared.share()?.as_slice(), "c", "c"));
    Ok(())
}

#[test]
fn embeds_a_protocol(rt: HostRuntime) -> Result<(), Fail> {
    let alloc = rt.alloc();
    let made = embed(alloc, &renaming(alloc, "c", "c")?, &assignment(alloc, "c")?);
    assert!(rt; made.ok() == Some(assignment(alloc, "c")?));
    Ok(())
}

#[test]
fn embeds_a_hole(rt: HostRuntime) -> Result<(), Fail> {
    let alloc = rt.alloc();
    let made = embed_ctx(alloc, &renaming(alloc, "c", "d")?, &Ctx::Hole);
    assert!(rt; made.is_ok());
    Ok(())
}

// Whether the pair of c and a becomes that of c and this name, where a is called b outside.
fn follows_to(alloc: Global, ctx: &Ctx, name: &str) -> Result<bool, Fail> {
    let mut inner = Vec::new(alloc);
    inner.push(pair(alloc, "c", "a")?)?;
    let made = follow(alloc, &renaming(alloc, "a", "b")?, ctx, inner.as_slice())?;
    Ok(is_pair(made.as_slice(), "c", name))
}

#[test]
fn follows_in_a_context(rt: HostRuntime) -> Result<(), Fail> {
    let alloc = rt.alloc();
    let hidden = Ctx::Hide(Name::read(alloc, "a")?, 1, Box::new(alloc, Ctx::Hole)?);
    assert!(rt; follows_to(alloc, &Ctx::Hole, "b")?);
    assert!(rt; follows_to(alloc, &hidden, "a")?);
    Ok(())
}

#[test]
fn finds_what_is_hidden_around_a_place(rt: HostRuntime) -> Result<(), Fail> {
    let alloc = rt.alloc();
    let inner = Box::new(alloc, assignment(alloc, "a")?)?;
    let whole = Proto::Hide(Name::read(alloc, "a")?, 1, inner);
    let path = Path::from_parts(alloc, &[0, 0])?;
    assert!(rt; hidden_around_place(alloc, &whole, &path)?.len() == 1);
    Ok(())
}

// Whether an interface with the output c, which is called d, fits a scope with this port alone.
fn fits_port(alloc: Global, name: &str) -> Result<Result<(), NoPort>, Fail> {
    let scope = [port(alloc, name)?];
    let visible = Visible::of(alloc, &scope)?;
    Ok(fits(&renaming(alloc, "c", "d")?, &writing(alloc, "c")?, &visible))
}

#[test]
fn fits_or_refuses(rt: HostRuntime) -> Result<(), Fail> {
    assert!(rt; fits_port(rt.alloc(), "d")? == Ok(()));
    assert!(rt; fits_port(rt.alloc(), "c")? == Err(NoPort { place: 0 }));
    Ok(())
}

#[test]
fn finds_a_captured_target(rt: HostRuntime) -> Result<(), Fail> {
    let alloc = rt.alloc();
    let renaming = renaming(alloc, "c", "d")?;
    let mut hidden = Names::empty(alloc);
    assert!(rt; first_captured_target(&renaming, &hidden).is_none());
    hidden.add(Name::read(alloc, "d")?)?;
    assert!(rt; first_captured_target(&renaming, &hidden).is_some());
    Ok(())
}
