//! Each module tries what it is named as: messages (`wire`), templates, reports with exports and devices, inputs, captures of other
//! exporters, and captures that are split. `samples` has the octets that several of them read.
mod exporters;
mod inputs;
mod reports;
mod samples;
mod split;
mod templates;
mod wire;
