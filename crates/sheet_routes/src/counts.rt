// The created and terminated counts.
use metrics::DialogMetrics;
use sheet_lines::ask;
use std::io;

const LARGEST: u64 = u64::MAX;

pub fn counts(rt: &impl Print) -> io::Result<()> {
    let none = DialogMetrics::new();
    count(rt, b"none", none)?;
    let one = none.record_created();
    count(rt, b"one created", one)?;
    count(rt, b"one created and terminated", one.record_terminated())?;
    let full = DialogMetrics {
        created: LARGEST,
        terminated: LARGEST - 1,
    };
    count(
        rt,
        b"one more created than can be counted",
        full.record_created(),
    )?;
    count(
        rt,
        b"the largest number terminated",
        full.record_terminated(),
    )
}

fn count(rt: &impl Print, what: &[u8], m: DialogMetrics) -> io::Result<()> {
    ask(rt, b"01 metrics.rs", b"counts, ", what)?;
    println!(rt; "{} {}", m.created, m.terminated)
}
