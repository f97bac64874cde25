mod chains;
mod stores;
mod tables;
