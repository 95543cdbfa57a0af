// Block devices (virtio 1.2, section 5.2), over a plain array as memory, and disks of the tests' own.
mod bench;
mod chains;
mod disk;
mod guest;
mod requests;
mod sizes;
