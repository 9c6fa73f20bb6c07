//! The apps of a load.

ghost use Rattle.std.specs.Prelude.{◌≡◌, ◌+◌, ◌*◌, ◌%◌, IfOk};
ghost use Rattle.vs_script.specs.App.{app_view};
ghost use Rattle.vs_apps_parts.specs.Scripts.{AreRight, script_of};
ghost use Rattle.vs_run_report.specs.Load.{load_app, load_script};

use std::alloc::{AllocError, Global};
use vs_run_report::load::LOAD_PORT;
use vs_script::{App, Data, Fill, Instruction};

// Where the bytes of an app begin.
fn start(number: u32, c: u32) -> u8
    ensures { result ≡ (number + 31 * c) % 256 }
{
    ((u64::from(number) + 31 * u64::from(c)) % 256) as u8
}

// The app of a place, counted from 0.
fn load_app(alloc: Global, number: u32, bytes: u32, c: u32) -> Result<App, AllocError>
    ensures { IfOk result (λ app. app_view app ≡ load_app number bytes c) }
{
    let fill = Fill {
        n: bytes,
        start: start(number, c),
    };
    let mut instructions = Vec::with_capacity(alloc, 3)?;
    instructions.push_reserved(Instruction::Connect { port: LOAD_PORT });
    instructions.push_reserved(Instruction::Exchange {
        content: Data::Fill(fill),
    });
    instructions.push_reserved(Instruction::Close);
    Ok(App { instructions })
}

/// The apps of a load, `conns` of them: app c, counted from 0, connects to the host's port `LOAD_PORT`, exchanges `bytes` bytes, of which byte i
/// is (number + 31c + 7i + i/251) mod 256, and closes. The only error is want of memory.
#[tactic(auto, using(crate::proofs::Scripted::apps_next))]
pub fn load_apps(alloc: Global, number: u32, conns: u32, bytes: u32) -> Result<Vec<App>, AllocError>
    ensures apps { IfOk result (λ apps. script_of apps.items ≡ load_script number conns bytes) }
{
    let mut apps = Vec::new(alloc);
    for c in 0..conns {
        let app = load_app(alloc, number, bytes, c)?;
        apps.push(app)?;
    }
    Ok(apps)
}

/// A load has no shutdown with other bits than it may have.
pub fn law_of_loads(number: u32, conns: u32, bytes: u32)
    ensures { AreRight (load_script number conns bytes) }
{}
