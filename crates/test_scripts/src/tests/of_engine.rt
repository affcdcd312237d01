mod checking;
mod playing;
mod showing;
