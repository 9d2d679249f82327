//! Records of axles, each linked to the one before.

use graph::heap::Heap;
use kinds::refusal::Refusal;
use std::io;

/// Three fields, of which field 2 is a reference.
pub(crate) const KIND: [u32; 3] = [3, 2, 1];

const AXLE: u32 = 0;

const SPAN: u32 = 0;

const STRAIN: u32 = 1;

const BEFORE: u32 = 2;

/// The slots: the newest record, the one that is filled, and the one that the task looks at.
const NEWEST: u32 = 0;

const FILLED: u32 = 1;

const CURSOR: u32 = 2;

/// The most records that the task walks back.
const FAR: u32 = 16;

/// An axle at a bearing.
#[derive(Clone, Copy)]
pub(crate) struct Axle {
    pub(crate) span: u32,
    pub(crate) strain: u32,
}

/// Makes a record, fills it, links it to the newest one, and holds it as the newest.
fn note<H: Heap>(heap: &mut H, axle: Axle) -> Result<u32, Refusal> {
    let number = heap.make(FILLED, AXLE)?;
    heap.write(FILLED, SPAN, axle.span)?;
    heap.write(FILLED, STRAIN, axle.strain)?;
    heap.link(FILLED, BEFORE, NEWEST)?;
    heap.hold(FILLED, NEWEST)?;
    heap.drop(FILLED)?;
    Ok(number)
}

/// A driver's part: one axle passes.
pub(crate) fn drive<H: Heap>(rt: &HostRuntime, heap: &mut H, axle: Axle) -> io::Result<()> {
    match note(heap, axle) {
        Ok(number) => println!(rt; "an axle passes: record {number}, spare {}", heap.spare()),
        Err(why) => println!(rt; "an axle passes: no {}", why.number()),
    }
}

/// The number of the cursor's record, and its axle; no record at the end of the links.
fn seen<H: Heap>(heap: &mut H) -> Result<Option<(u32, Axle)>, Refusal> {
    let (number, _) = heap.look(CURSOR)?;
    if number == 0 {
        return Ok(None);
    }
    let span = heap.read(CURSOR, SPAN)?;
    let strain = heap.read(CURSOR, STRAIN)?;
    heap.follow(CURSOR, BEFORE, CURSOR)?;
    Ok(Some((number, Axle { span, strain })))
}

/// A task's part: it follows the links back from the newest record.
pub(crate) fn walk_back<H: Heap>(rt: &HostRuntime, heap: &mut H) -> io::Result<()> {
    println!(rt; "back from the newest:")?;
    let _ = heap.hold(NEWEST, CURSOR);
    for _ in 0..FAR {
        match seen(heap) {
            Ok(Some((number, axle))) => println!(rt;
                "record {number}: span {}, strain {}",
                axle.span, axle.strain
            )?,
            Ok(None) => return println!(rt; "the first record is reached"),
            Err(why) => return println!(rt; "no {}", why.number()),
        }
    }
    Ok(())
}
