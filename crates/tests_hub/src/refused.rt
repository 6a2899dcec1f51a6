// Each public call of the hub that takes memory, refused it once.
mod one_thread;
mod threads;
