//! What every crate of the analyser shares: the records and the definitions of the written machine. The items of
//! `wx_text` and `wx_host` are given out here too.
#![tactic(auto)]

mod fact_kind;
mod facts;
mod flow;
mod image;
mod machine;
mod step;
mod symbol;
mod times;

pub use fact_kind::FactKind;
pub use facts::{Addresses, Facts, LoopFact, LoopFacts, TargetFact, TargetFacts};
pub use flow::FlowKind;
pub use image::{Image, Segment, Segments, Symbols};
pub use machine::{Machine, Region, Regions, Shape, Unit, UnitKind};
pub use step::{BlockTransfer, Computed, Datum, Flags, Shifted, Transfer, Why};
pub use symbol::{Symbol, find_symbol};
pub use times::Times;
pub use wx_host::{
    File, HostSink, HostStore, MemSink, MemStore, Sink, SinkFault, Store, StoreFault,
};
pub use wx_text::{Cursor, NoMemory, Text, decimal_is_shortest, push_number, push_word};
