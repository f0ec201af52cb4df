//! Tests of the tables of ELF files, of their layout, and of what is written by it. They stand apart, so that a proof of what
//! they test does not wait for them.
#![tactic(auto)]

// What a call gives, which fails for want of memory alone. It is made twice, and is not refused memory again the second time.
// (So no call needs a branch for it.)
#[cfg(test)]
macro_rules! sure {
    ($rt:expr; $call:expr) => {
        crate::support::given($rt, $call, $call)
    };
}

#[cfg(test)]
mod blocks;
#[cfg(test)]
mod copied;
#[cfg(test)]
mod counted;
#[cfg(test)]
mod files;
#[cfg(test)]
mod hash_tables;
#[cfg(test)]
mod hashes;
#[cfg(test)]
mod laid;
#[cfg(test)]
mod lengths;
#[cfg(test)]
mod needs;
#[cfg(test)]
mod reasons;
#[cfg(test)]
mod records;
#[cfg(test)]
mod small;
#[cfg(test)]
mod strings;
#[cfg(test)]
mod support;
#[cfg(test)]
mod trial;
#[cfg(test)]
mod versions;
