// The calls of a book, one file each.
mod ask;
mod regrade;
mod route;
mod start;
mod work;
