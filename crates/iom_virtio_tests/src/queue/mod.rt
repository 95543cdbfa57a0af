// Split queues (virtio 1.2, section 2.7), over a plain array as memory.
mod bench;
mod queues;
mod spans;
