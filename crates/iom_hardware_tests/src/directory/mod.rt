// The device directory (chapter 2): contexts and entries of worked runs both ways, one reserved bit at a time, and the cache of contexts when it is full.
mod caches;
mod contexts;
mod directories;
