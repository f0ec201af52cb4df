//! Tests of the Mach-O side: how files, tables of fat files and code signatures are read and why they are refused,
//! how load commands are stored, and how files are kept and edited, thin and fat.
#![tactic(auto)]

// What a call answers that changes nothing. It is made twice, and what it answers first counts where that is not want
// of memory. Then it is not refused memory again. (So no call needs a branch for it.)
#[cfg(test)]
macro_rules! again {
    ($rt:expr; $call:expr) => {
        crate::support::granted($rt, $call, $call)
    };
}

// What such a call gives, which is to succeed.
#[cfg(test)]
macro_rules! sure {
    ($rt:expr; $call:expr) => {
        crate::support::given($rt, $call, $call)
    };
}

// Compares what such a call tells with a text: the text that it gives, or its error.
#[cfg(test)]
macro_rules! tells {
    ($rt:expr; $what:expr; $call:expr; $want:expr) => {
        crate::support::same_text($rt, $what, again!($rt; $call), $want)
    };
}

#[cfg(test)]
mod containers;
#[cfg(test)]
mod edits;
#[cfg(test)]
mod fat;
#[cfg(test)]
mod fat_table;
#[cfg(test)]
mod image;
#[cfg(test)]
mod signatures;
#[cfg(test)]
mod store;
#[cfg(test)]
mod support;
