mod calls;
mod events;
mod link;
