// Runs Tip5's published vectors, a trace, the sponge in both domains and the lookup table's rule, and writes what comes out.
#![tactic(auto)]

mod vectors;

use std::io;
use tip5::sponge::{Domain, Sponge};

// The words in decimal on a line.
fn line(rt: &impl Print, words: &[u64]) -> io::Result<()> {
    for (i, word) in words.iter().enumerate() {
        if 0 < i {
            print!(rt; ", ")?;
        }
        print!(rt; "{word}")?;
    }
    println!(rt)
}

// Sixteen words a line.
fn state_lines(rt: &impl Print, words: &[u64]) -> io::Result<()> {
    for state in words.chunks(16) {
        line(rt, state)?;
    }
    Ok(())
}

// A sponge takes in 0, 1, .., 9 and gives out twenty words.
fn domain_lines(rt: &impl Print, domain: Domain) -> io::Result<()> {
    let first = Sponge::new(domain).absorb(vectors::numbers()).squeeze();
    let second = first.sponge.squeeze();
    line(rt, &first.words)?;
    line(rt, &second.words)
}

fn lookup_line(rt: &impl Print) -> io::Result<()> {
    match vectors::first_wrong(tip5::split_and_lookup::lookup_table()) {
        None => println!(rt; "lookup table: 256 entries by the rule"),
        Some(place) => println!(rt; "lookup table: not by the rule at {place}"),
    }
}

fn main(rt: HostRuntime) -> io::Result<()> {
    println!(rt; "hash_10 of ten zeros")?;
    line(&rt, &tip5::hash::hash_10([0; 10]))?;
    println!(rt; "hash_10, chained")?;
    line(&rt, &vectors::chained())?;
    println!(rt; "sum of hash_varlen of the first 0 to 19 numbers")?;
    line(&rt, &vectors::varlen_sum())?;
    println!(rt; "trace of 0, 1, .., 15")?;
    state_lines(&rt, &tip5::permutation::trace(vectors::numbers()))?;
    println!(rt; "sponge, variable length: 0, 1, .., 9 absorbed, squeezed twice")?;
    domain_lines(&rt, Domain::VariableLength)?;
    println!(rt; "sponge, fixed length: 0, 1, .., 9 absorbed, squeezed twice")?;
    domain_lines(&rt, Domain::FixedLength)?;
    lookup_line(&rt)
}
