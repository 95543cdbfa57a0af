// The cache inside a device with ATS: which answers it keeps, how many, and what invalidations and resets take out.
mod epochs;
mod room;
mod steps;
