//! The gestures of a bench, served and counted.
ghost use Rattle.std.specs.Prelude.{◌≡◌, ◌≤◌, None, length};
ghost use Rattle.cl_application.specs.Panes.{IsPlaced};
ghost use Rattle.cl_frame.specs.Ground.{ground, ground_of, meanings_of};
ghost use Rattle.cl_gesture.specs.Lines.{pieces};
ghost use Rattle.cl_opening.specs.Opening.{opening_slots};
ghost use Rattle.cl_program.specs.Commands.{Measures};
ghost use Rattle.cl_program.specs.Hosts.{meanings_in, reads_in};
ghost use Rattle.cl_program.specs.Run.{limits_of};
ghost use Rattle.cl_ptext.specs.Subtyping.{hierarchy_in};
ghost use Rattle.cl_tables.specs.Rings.{HasNoRing};
ghost use Rattle.cl_updating.specs.Redisplays.{CanReuse};

use crate::running::{limits_of, open};
use crate::sure_source::SureSource;
use cl_eval::{Program, Slots, Types};
use cl_gesture::Ahead;
use cl_load::Loaded;
use cl_outside::{Ledger, NullDevice, NullSink, Steps};
use cl_ptext::{Hosts, TypeBook};
use cl_session::{End, Totals};
use std::alloc::{AllocError, Global};

/// Serves gestures to an application, on a device and a sink that keep nothing: the sums over what was told of its panes. It fails
/// only for want of memory before the first gesture; want of memory behind it is counted in the sums.
pub fn measure<H: Hosts, L: Ledger>(
    alloc: Global,
    loaded: &Loaded,
    hosts: &H,
    gestures: &[u8],
    steps: &mut Steps<L>,
) -> Result<Totals, AllocError>
    requires reuse { CanReuse loaded.now.app (meanings_in (H.entries hosts.now) loaded.now.lattice loaded.now.app) }
    requires few { length (pieces gestures.now) ≤ 1000000 }
    ensures measures { Measures (ground loaded.now.app (meanings_in (H.entries hosts.now) loaded.now.lattice loaded.now.app)
        (reads_in (H.entries hosts.now) loaded.now.lattice loaded.now.app) (hierarchy_in loaded.now.lattice) (limits_of None))
        gestures.now steps.old steps.new result }
    ensures later { steps.old ≤ steps.new }
{
    let types = TypeBook::new(alloc, &loaded.app, &loaded.lattice, hosts);
    measure_types(alloc, loaded, &types, gestures, steps)
}

// The same on these types.
fn measure_types<'a, T: Types, L: Ledger>(
    alloc: Global,
    loaded: &'a Loaded,
    types: &'a T,
    gestures: &[u8],
    steps: &mut Steps<L>,
) -> Result<Totals, AllocError>
    requires reuse { CanReuse loaded.now.app (meanings_of T.holds T.presents types.now) }
    requires few { length (pieces gestures.now) ≤ 1000000 }
    ensures measures { Measures (ground loaded.now.app (meanings_of T.holds T.presents types.now) (T.reads types.now)
        (T.hierarchy types.now) (limits_of None)) gestures.now steps.old steps.new result }
    ensures later { steps.old ≤ steps.new }
{
    let program = Program {
        alloc,
        app: &loaded.app,
        types,
        limits: limits_of(None),
    };
    measure_program(&program, &loaded.slots, gestures, steps)
}

// The same of a program.
fn measure_program<T: Types, L: Ledger>(
    program: &Program<'_, T>,
    slots: &Slots,
    gestures: &[u8],
    steps: &mut Steps<L>,
) -> Result<Totals, AllocError>
    requires depth { program.now.limits.depth ≤ 512 }
    requires placed { IsPlaced program.now.app.now.frame }
    requires no_ring { HasNoRing program.now.app.now.tables }
    requires reuse { CanReuse program.now.app.now (meanings_of T.holds T.presents program.now.types.now) }
    requires opening { slots.now ≡ opening_slots program.now.app.now }
    requires few { length (pieces gestures.now) ≤ 1000000 }
    ensures measures { Measures (ground_of T.holds T.presents T.reads T.hierarchy program.now) gestures.now steps.old steps.new result }
    ensures later { steps.old ≤ steps.new }
{
    let room = Ahead::new(program.alloc)?;
    let mut source = SureSource::new(program.alloc, Vec::from_slice(program.alloc, gestures)?);
    let mut device = NullDevice::new();
    let mut sink = NullSink::new();
    let mut opening = open(program, slots, &mut device, steps)?;
    match opening.serve(program, room, &mut device, &mut source, &mut sink, steps) {
        End::Done => Ok(opening.session.totals()),
        End::ReadFault => unreachable!(),
        End::TooMany => unreachable!(),
        End::OutputFault => unreachable!(),
    }
}
