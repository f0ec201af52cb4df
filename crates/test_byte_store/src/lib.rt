//! Tests of bytes and of stores: numbers in bytes, byte strings, what each failing call of a run leaves, and each public
//! call where none fails.
#![tactic(auto)]

// What a call gives, which is to succeed. It is made twice, and what it answers first counts where that is not want of memory.
// Then it is not refused memory again. (So no call needs a branch for it.)
#[cfg(test)]
macro_rules! sure {
    ($rt:expr; $call:expr) => {
        crate::support::given($rt, $call, $call)
    };
}

// Compares what a call reads, made twice in the same way: how many bytes, and the first of them, or none.
#[cfg(test)]
macro_rules! expect {
    ($rt:expr; $call:expr, $length:expr, $front:expr) => {
        crate::reading::reads($rt, $call, $call, $length, $front)
    };
}

#[cfg(test)]
mod causes;
#[cfg(test)]
mod numbers;
#[cfg(test)]
mod plans;
#[cfg(test)]
mod reading;
#[cfg(test)]
mod stores;
#[cfg(test)]
mod strings;
#[cfg(test)]
mod support;
#[cfg(test)]
mod trial;
