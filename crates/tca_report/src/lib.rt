//! Packet reports, their order, the devices that octets come from and go to, the log export, and the reports of a
//! capture of IPFIX messages (RFC 7011).
//!
//! `gather` reads either input. A capture is gone through in pieces, and of it only a message that lies across two
//! pieces is copied; without memory for that copy the rest is read where it lies. A record's report is made of the
//! fields that were chosen when its template was defined, in the octets of the message: but for the reports themselves
//! nothing is allocated for a record. What is kept is the templates of one session, which are limited, and the reports.
//!
//! - `report`: a report and the order of reports;
//! - `device`: what octets come from and go to; in it `octets` reads and writes all of them, `limited` counts reads;
//! - `export`: the log export; in it `reading` and `writing`;
//! - `input`: log exports and captures; in it `capture` reads captures, and `fields` and `extraction` find the fields
//!   of a data record that make a report.
#![tactic(auto)]

mod device;
mod export;
mod input;
mod report;

pub use device::{Host, Read, ReadFault, Write, WriteFault, put_all, read_octets};
pub use export::{ExportFault, read_export, spelling_is_unique, write_export};
pub use input::{Gathered, Input, InputFault, NotReport, Notes, extract, gather, input_laws};
pub use report::{Content, Identity, Report, TIME_END, order_is_total};
