mod bound;
mod plain;
mod small;
mod trees;
