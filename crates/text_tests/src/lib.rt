//! Tests of what `trace_format` and `report_text` hand out: texts of traces, each with what is read or refused, and
//! the lines of reports. They stand in a crate of their own, so that neither crate is proved once more with them.
#![tactic(auto)]

#[cfg(test)]
mod tests;
