//! Follows the records of axles on a bridge: a driver makes one for each axle, a task follows the links back.

#![tactic(auto)]

mod axles;
mod refused;

use axles::Axle;
use graph::heap::Heap;
use kinds::book::Book;
use straight::heap::Straight;

/// The axles that pass.
const CONVOY: [Axle; 4] = [
    Axle {
        span: 3,
        strain: 120,
    },
    Axle {
        span: 3,
        strain: 118,
    },
    Axle {
        span: 4,
        strain: 97,
    },
    Axle {
        span: 2,
        strain: 141,
    },
];

/// Tells the story on any heap.
fn tell<H: Heap + Drop>(rt: &HostRuntime, mut heap: H) -> anyhow::Result<()> {
    let words = heap.capacity();
    println!(rt; "a heap of {words} words, spare {}", heap.spare())?;
    for axle in CONVOY {
        axles::drive(rt, &mut heap, axle)?;
    }
    axles::walk_back(rt, &mut heap)?;
    refused::show(rt, &mut heap)?;
    println!(rt; "spare {} of {words} words", heap.spare())?;
    Ok(())
}

fn main(rt: HostRuntime) -> anyhow::Result<()> {
    let mut book = Book::new();
    match book.add(&axles::KIND) {
        Ok(kind) => println!(rt; "kind {kind}: span, strain, the record before")?,
        Err(why) => println!(rt; "no {}", why.number())?,
    }
    let mut words = [0u32; 24];
    let heap = Straight::open(&mut words, 4, book.seal(), 1);
    if let Err(why) = heap.opening() {
        println!(rt; "no {}", why.number())?;
    }
    tell(&rt, heap)
}
