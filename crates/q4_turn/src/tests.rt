//! Values that a turn keeps, and threads that hold it.
mod counter;
mod crowd;
mod desk;
mod device;
