//! Each module tries what it is named as: joins, logs, buckets, meters, plans and bills (`accounts`), lanes and books (`replay`), replicas
//! and worlds (`gossip`), statements as they are read (`figures`). Beside them stands what several of them read: bills found in the plainest way (`plain`), numbers by a fixed rule,
//! and worked rows (`samples`).
mod accounts;
mod buckets;
mod figures;
mod gossip;
mod join;
mod log;
mod meters;
mod numbers;
mod plain;
mod replay;
mod samples;
