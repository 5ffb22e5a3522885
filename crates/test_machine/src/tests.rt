mod instructions;
mod limits;
mod live;
mod operations;
mod programs;
mod trial;
mod wanted;
