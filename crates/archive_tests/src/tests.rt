mod records;
mod shelves;
