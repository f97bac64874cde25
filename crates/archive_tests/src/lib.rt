//! Tests of what `archive_record` and `page_shelf` hand out: records whose bytes were worked out by hand from the
//! format, and shelves over real files.
#![tactic(auto)]

#[cfg(test)]
mod tests;
