//! Tests of `esp3_resync`: packets in streams.
mod framer_comparison;
mod plain_framer;
mod streams;
