//! What the steps of one worker answer: each refusal of each step, among them where several causes
//! are there at once, and each step that is accepted.
//!
//! A scene is a worker, one of two, with a lane to the other and a lane from it, and the book. Its
//! first line has all that is seen of these. Each further line has what is done, the answer, and
//! what has changed. So a line that ends with its refusal says that nothing else has changed.

ghost use Rattle.std.specs.Prelude.{◌≡◌, ◌+◌, ◌^◌};

mod acts;
mod look;
mod scenes;
mod team;
mod trial;

use acts::make;
use board::Shape;
use look::{look, print_changes};
use message_ledger::{Allowance, Capped, Credit, Grants, Purse, Shares, Tokens};
use owners::{ByBlank, Spread, Zobrist};
use scenes::{Act, Division, SCENES, Scene};
use std::io::{self, ErrorKind, Print};
use std::marker::Brand;
use std::sync::ledger::{Blank, Ledger};
use team::{Team, WORKERS, gather};

/// Plays all scenes, and prints what is seen of them.
pub fn print_scenes(rt: &(impl Print + AllocGlobal)) -> io::Result<()> {
    for scene in &SCENES {
        print_scene(rt, scene)?;
    }
    Ok(())
}

fn print_scene(rt: &(impl Print + AllocGlobal), scene: &Scene) -> io::Result<()> {
    println!(rt; "# {}", scene.title)?;
    play(rt, scene)?;
    rt.println("")
}

// Plays a scene, by the owners that it names.
fn play(rt: &(impl Print + AllocGlobal), scene: &Scene) -> io::Result<()> {
    let credit = Blank::new(u64::MAX);
    let grants = Blank::new(WORKERS as u64);
    match scene.division {
        Division::ByBlank => {
            play_by::<Brand, Brand, ByBlank>(rt, &ByBlank, scene, credit, grants)
        }
        Division::ByHash => {
            let Ok(shape) = Shape::new(scene.side, scene.side) else {
                return Err(ErrorKind::InvalidInput.into());
            };
            let owners = Zobrist::new(shape);
            play_by::<Brand, Brand, Zobrist>(rt, &owners, scene, credit, grants)
        }
    }
}

fn play_by<L: Ledger + Send + Sync, M: Capped + Send + Sync, S: Spread>(
    rt: &(impl Print + AllocGlobal),
    owners: &S,
    scene: &Scene,
    credit: Blank,
    grants: Blank,
) -> io::Result<()>
    requires credit_name { credit.name ≡ L.name }
    requires credit_parts { credit.parts ≡ L.parts }
    requires credit_all { credit.parts + 1 ≡ 2 ^ 64 }
    requires grants_name { grants.name ≡ M.name }
    requires grants_parts { grants.parts ≡ M.parts }
    requires workers { M.parts ≡ WORKERS }
    requires limit { M.limit ≡ scene.now.limit }
{
    let (credit, purse) = Credit::<Shares<L, M>>::shared(credit);
    let (grants, mut tickets) = Grants::<Shares<L, M>>::shared(grants);
    let allowance = tickets.take::<L>();
    play_with(rt, owners, scene, credit, purse, grants, allowance)
}

fn play_with<C: Tokens, S: Spread>(
    rt: &(impl Print + AllocGlobal),
    owners: &S,
    scene: &Scene,
    credit: Credit<C>,
    purse: Purse<C>,
    grants: Grants<C>,
    allowance: Allowance<C>,
) -> io::Result<()>
    requires limit { C.allows_limit scene.now.limit }
    requires workers { C.allows_workers WORKERS }
    requires none { grants ≡ 0 }
{
    match gather(rt.alloc(), scene, credit, purse, grants, allowance) {
        Some(mut team) => perform(rt, owners, scene, &mut team),
        None => Err(ErrorKind::OutOfMemory.into()),
    }
}

// Does what a scene says, and prints it.
fn perform<C: Tokens, S: Spread>(
    rt: &(impl Print + AllocGlobal),
    owners: &S,
    scene: &Scene,
    team: &mut Team<C>,
) -> io::Result<()> {
    let mut seen = look(rt.alloc(), team)?;
    rt.println(seen.as_str())?;
    'acts: for act in scene.acts {
        seen = print_act(rt, owners, scene.me, team, *act, seen.as_str())?;
    }
    Ok(())
}

// Does what one line says, and prints it; what is seen after it.
fn print_act<C: Tokens, S: Spread>(
    rt: &(impl Print + AllocGlobal),
    owners: &S,
    me: usize,
    team: &mut Team<C>,
    act: Act,
    seen: &str,
) -> io::Result<String> {
    let answer = make(rt.alloc(), owners, me, team, act);
    print!(rt; "{act:?}: {answer}")?;
    let now = look(rt.alloc(), team)?;
    print_changes(rt, seen, now.as_str())?;
    Ok(now)
}
