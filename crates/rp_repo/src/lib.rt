//! The repository of STEP models, for programs: its calls over values, and its run over the lines
//! of any reader.
#![tactic(auto)]

pub mod answer;
pub mod laws;
pub mod repository;
pub mod run;

pub use answer::release;
pub use ex_check::SchemaFault;
pub use ex_compiled::Compiled;
pub use ex_loaded::LoadedSchema;
pub use plain_data::{Rows, Text};
pub use repository::{Call, Caller, Repository};
pub use rp_core::Pending;
pub use rp_io::{DeviceFault, FromReader, Sink, Source, ToWriter};
pub use rp_plain::messages::{NewFault, Refusal, Reply, Request};
pub use rp_replies::reply_bytes;
pub use rp_requests::{RequestLine, Unread, request_of};
pub use rp_restore::{RefusedRow, RestoreFault, RowKind, RowReason, SnapshotLack};
pub use rp_restored_rows::RowLack;
pub use rp_snapshot_rows::Lack;
pub use rp_snapshots::SaveFault;
pub use run::{RunFault, run_lines};
