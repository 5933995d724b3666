// A file read, and what is compared.
use crate::entry::Entry;
use job::job_file::{Words, read_job};
use std::io;

// What the slices hold before the file is read. Their words behind the job's, and all of them where the file is broken, stay so.
const FILL: u64 = 7777;

// Of all words: three times the sum so far, and the next one.
fn sum(words: &[u64]) -> u64 {
    words
        .iter()
        .fold(0u64, |sum, word| sum.wrapping_mul(3).wrapping_add(*word))
}

// What a file said.
#[derive(Drop)]
struct Said {
    number: u64,
    digest: [u64; 5],
    counts: [u64; 5],
    budget: u64,
    sums: [u64; 7],
}

// Of a broken file only the number, and the slices.
fn read(file: &[u8]) -> Said {
    let mut opcodes = [FILL; 1024];
    let mut arguments = [FILL; 1024];
    let mut public = [FILL; 5461];
    let mut secret = [FILL; 5461];
    let mut digests = [FILL; 7445];
    let mut addresses = [FILL; 3276];
    let mut values = [FILL; 3276];
    let mut words = Words {
        opcodes: &mut opcodes,
        arguments: &mut arguments,
        public: &mut public,
        secret: &mut secret,
        digests: &mut digests,
        addresses: &mut addresses,
        values: &mut values,
    };
    let result = read_job(file, &mut words);
    let sums = [
        sum(&opcodes),
        sum(&arguments),
        sum(&public),
        sum(&secret),
        sum(&digests),
        sum(&addresses),
        sum(&values),
    ];
    match result {
        Ok(j) => {
            let digest = j.digest;
            Said {
                number: 0,
                digest,
                counts: [
                    j.slots as u64,
                    j.publics as u64,
                    j.secrets as u64,
                    j.digests as u64,
                    j.cells as u64,
                ],
                budget: j.budget,
                sums,
            }
        }
        Err(broken) => Said {
            number: broken.number(),
            digest: [0; 5],
            counts: [0; 5],
            budget: 0,
            sums,
        },
    }
}

// Prints a line for each difference, and gives back whether there is none. Of the file n bytes are the list's.
pub fn right(rt: &impl Print, i: u64, entry: &Entry, file: &[u8], n: usize) -> io::Result<bool> {
    let found = read(file);
    let [slots, publics, secrets, digests, cells] = entry.counts;
    let [
        opcodes,
        arguments,
        public_words,
        secret_words,
        digest_words,
        addresses,
        values,
    ] = entry.sums;
    let parts = [
        ("length of the file", n as u64 == entry.length),
        ("number", found.number == entry.number),
        ("digest", found.digest == entry.digest),
        ("budget", found.budget == entry.budget),
        ("how many slots", found.counts[0] == slots),
        ("how many public words", found.counts[1] == publics),
        ("how many secret words", found.counts[2] == secrets),
        ("how many words of digests", found.counts[3] == digests),
        ("how many cells", found.counts[4] == cells),
        ("opcodes", found.sums[0] == opcodes),
        ("arguments", found.sums[1] == arguments),
        ("public words", found.sums[2] == public_words),
        ("secret words", found.sums[3] == secret_words),
        ("digests", found.sums[4] == digest_words),
        ("addresses", found.sums[5] == addresses),
        ("values", found.sums[6] == values),
    ];
    for (what, same) in parts {
        if !same {
            print!(rt; "entry {i}: {what}, ")?;
            rt.write_all(&entry.name)?;
            println!(rt)?;
        }
    }
    Ok(parts.iter().all(|(_, same)| *same))
}
